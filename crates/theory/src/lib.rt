// What a verdict means: definitions in specs/, and theorems about them in proofs/.
#![tactic(auto)]

ghost use Rattle.theory.specs.Theorems.{SureDecided, SureBound, SureMeans, NeverForced, SureMoveSome, SureMoveLower, ReplySome, RoundsEnd, AlmostDecided, AlmostBound, AlmostMeans, SureAlmost, AlmostMoveSome, PlayArrives, SureComputed, SureRankComputed, SureMoveComputed, OuterComputed, RoundsComputed, AlmostComputed, AlmostRankComputed, AlmostMoveComputed, ReplyComputed, RunsLaw, CallsAnswered, OneAnswer};
ghost use Rattle.theory.specs.Known.{Known};

// The theorems on sure ranks. The call does nothing: its contract says them.
pub fn sure_ranks_mean_strategies()
    ensures decided { SureDecided }
    ensures bound { SureBound }
    ensures means { SureMeans }
    ensures never { NeverForced }
    ensures some_move { SureMoveSome }
    ensures lower { SureMoveLower }
    ensures reply { ReplySome }
{}

// The theorems on almost-sure states. The call does nothing: its contract says them.
pub fn almost_sure_states_mean_rules()
    ensures rounds { RoundsEnd }
    ensures decided { AlmostDecided }
    ensures bound { AlmostBound }
    ensures means { AlmostMeans }
    ensures sure { SureAlmost }
    ensures moves { AlmostMoveSome }
{}

// The theorem on plays. The call does nothing: its contract says it.
pub fn plays_arrive()
    ensures { PlayArrives }
{}

// The verdicts that compute are the verdicts. The call does nothing: its contract says it.
pub fn computed_verdicts_are_the_verdicts()
    ensures sure { SureComputed }
    ensures sure_rank { SureRankComputed }
    ensures sure_moves { SureMoveComputed }
    ensures outer { OuterComputed }
    ensures rounds { RoundsComputed }
    ensures almost { AlmostComputed }
    ensures almost_rank { AlmostRankComputed }
    ensures almost_moves { AlmostMoveComputed }
    ensures reply { ReplyComputed }
{}

// The verdicts of the known games. The call does nothing: its contract says them.
pub fn known_games()
    ensures { Known }
{}

// The theorems on runs of calls on a bench. The call does nothing: its contract says them.
pub fn runs_of_calls_keep_their_word()
    ensures law { RunsLaw }
    ensures answered { CallsAnswered }
    ensures once { OneAnswer }
{}
