// The places of rows and supports in a record, so that a question finds them in one step.
ghost use Rattle.std.specs.Prelude.{◌≡◌, ◌+◌, ◌*◌, ◌≤◌};

// The place of a state's row, and the number of the row's first support.
#[derive(Clone, Copy)]
pub(crate) struct Row {
    pub(crate) place: u16,
    pub(crate) first: u16,
}

// For each state its row, and for each support its place.
// The library allocates nothing, so the supports of all rows lie in one array: a record of at most 60,000 bytes has fewer than 12,000.
#[derive(Clone, Copy)]
pub(crate) struct Places {
    pub(crate) rows: [Row; 256],
    pub(crate) supports: [u16; 12000],
}

impl Places {
    // No place is noted yet.
    pub(crate) fn new() -> Places {
        Places {
            rows: [Row { place: 0, first: 0 }; 256],
            supports: [0; 12000],
        }
    }
}

// How far reading has come: the place of the next byte, and the number of the next support. Each support takes at least five bytes.
#[derive(Clone, Copy)]
pub(crate) struct Cursor {
    pub(crate) place: usize,
    pub(crate) support: usize,
    ghost room: { 5 * support + 1 ≤ place },
}

impl Cursor {
    // the first row of a record
    pub(crate) fn first() -> Cursor
        ensures place { result.place ≡ 1 }
        ensures support { result.support ≡ 0 }
    {
        Cursor {
            place: 1,
            support: 0,
        }
    }
}
