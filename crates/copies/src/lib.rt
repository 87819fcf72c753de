// The two ways round: a record that is opened and written again, and a game that is written and opened again.
#![tactic(auto)]

ghost use Rattle.std.specs.Prelude.{◌≡◌, ℕ, ◌-◌, ◌≤◌, List, length, take, drop, MatchResult};
ghost use Rattle.game.specs.Games.{Same};
ghost use Rattle.game.specs.Refusals.{told};
ghost use Rattle.layout.specs.Reading.{shown};
ghost use Rattle.layout.specs.Writing.{record_of, Records};
ghost use Rattle.writer.specs.Outcomes.{NotWritten};
ghost use Rattle.copies.specs.Copies.{Rewritten, NotRewritten, supports_below};

use game::player::Player;
use game::refusal::Refusal;
use game::source::Source;
use records::table::Table;
use writer::write;

// Writes the game of a table: whatever bytes are its record, the buffer then begins with them.
fn write_table(table: &Table, buffer: &mut [u8]) -> Result<usize, Refusal>
    ensures { (bs : List ℕ) → Records bs (shown table.now.bytes.now) → MatchResult result (λ len. Rewritten bs buffer.old buffer.new len) (λ e. NotRewritten bs buffer.old buffer.new (told e)) }
{
    write(table, buffer)
}

// Opens the bytes and writes the game again, by the four questions alone: the buffer then begins with the same bytes.
pub fn rewrite(bytes: &[u8], buffer: &mut [u8]) -> Result<usize, Refusal>
    ensures { MatchResult result (λ len. Rewritten bytes.now buffer.old buffer.new len) (λ e. NotRewritten bytes.now buffer.old buffer.new (told e)) }
{
    let mut table = Table::new();
    table.open(bytes)?;
    write_table(&table, buffer)
}

// Writes the game of a source: the bytes written are its record.
fn write_record<S: Source>(source: &S, buffer: &mut [u8]) -> Result<usize, Refusal>
    ensures { MatchResult result (λ len. (len ≡ length (record_of (S.Source.game source.now))) × (len ≤ length buffer.new) × Records (take (len - 0) (drop 0 buffer.new)) (S.Source.game source.now)) (λ e. NotWritten (length (record_of (S.Source.game source.now))) (length buffer.old) (told e)) }
{
    write(source, buffer)
}

// Writes the game of a source and opens the table on the bytes: the table then shows the same game, question by question.
// Where the record is not written, the table is as before.
pub fn reopen<'a, S: Source>(
    source: &S,
    buffer: &'a mut [u8],
    table: &mut Table<'a>,
) -> Result<usize, Refusal>
    ensures { MatchResult result (λ len. (len ≡ length (record_of (S.Source.game source.now))) × Same (S.Source.game source.now) (shown table.new.bytes.now)) (λ e. NotWritten (length (record_of (S.Source.game source.now))) (length buffer.old) (told e) × (table.new ≡ table.old)) }
{
    let length = write_record(source, buffer)?;
    table.open(&buffer[0..length])?;
    Ok(length)
}

// How many supports the game of a source has: one for each state and each two moves that the players have there.
// A chain that ends in `sum` would leave its bound and its result to proofs by hand, which this loop does not need.
pub fn count_supports<S: Source>(source: &S) -> usize
    ensures { result ≡ supports_below (S.Source.game source.now) (S.Source.game source.now).size }
{
    let mut count = 0;
    for state in 0..source.states() {
        let first = source.moves(Player::One, state).count_ones();
        let second = source.moves(Player::Two, state).count_ones();
        // a product of two counts of bits fits, and no `From` leads from u32 to usize
        count += (first * second) as usize;
    }
    count
}
