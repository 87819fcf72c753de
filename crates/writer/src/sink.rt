// Where the bytes of a record go: they are counted, or stored in a buffer.
ghost use Rattle.std.specs.Prelude.{◌≡◌, ℕ, ◌-◌, ◌<◌, List, [], ◌∷◌, length};
ghost use Rattle.writer.specs.Sinks.{SinkLaws, uncounted, Counts, Stores};
ghost use Rattle.writer.specs.Laws.{counts_laws, stores_laws};

// Takes bytes, one after the other.
pub(crate) trait Sink {
    // how many more bytes it can take
    ghost room: { Self → ℕ };

    // taking the bytes turns the first into the second
    ghost takes: { Self → List ℕ → Self → Type 0 };

    fn put(&mut self, byte: u8)
        requires { 0 < room self.old }
        ensures { takes self.old (byte ∷ []) self.new };

    ghost laws: { SinkLaws room takes };
}

// Only counts the bytes.
#[derive(Drop)]
pub(crate) struct Count(pub(crate) usize);

impl Sink for Count {
    ghost room = { λ x. uncounted x.0 };

    ghost takes = { λ x bs y. Counts x.0 bs y.0 };

    ghost laws = { counts_laws (λ x. x.0) };

    fn put(&mut self, _byte: u8) {
        self.0 += 1;
    }
}

// Stores the bytes in a buffer, from the place `at` on: the caller lends the buffer, and the library allocates none.
#[derive(Drop)]
pub(crate) struct Store<'a> {
    pub(crate) buffer: &'a mut [u8],
    pub(crate) at: usize,
}

impl Sink for Store<'_> {
    ghost room = { λ x. length x.buffer.now - x.at };

    ghost takes = { λ x bs y. (y.buffer.ghost_name ≡ x.buffer.ghost_name) × Stores x.buffer.now x.at bs y.buffer.now y.at };

    ghost laws = { stores_laws (λ x. x.buffer.ghost_name) (λ x. x.buffer.now) (λ x. x.at) };

    fn put(&mut self, byte: u8) {
        self.buffer[self.at] = byte;
        self.at += 1;
    }
}
