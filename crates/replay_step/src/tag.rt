// What the tag of an event tells that opens or closes a segment.
ghost use Rattle.std.specs.Prelude.{◌≡◌, ◌<◌};
ghost use Rattle.theory_timeline.specs.Tags.{is_open_after, key_of, was_open};

// Internal: the first word of an event: 1 + 4 · key + 2 · before + after, 0 for a query.
#[derive(Clone, Copy, Debug, PartialEq, Eq)]
pub struct Tag {
    pub word: usize,
}

impl Tag {
    // Internal: the key, the name of the road that the event names.
    pub fn key(self) -> usize
        requires { 0 < self.word }
        ensures { result ≡ key_of self.word }
    {
        (self.word - 1) / 4
    }

    // Whether the road is open just before the event.
    pub(crate) fn was_open(self) -> bool
        requires { 0 < self.word }
        ensures { result ≡ was_open self.word }
    {
        (self.word - 1) / 2 % 2 == 1
    }

    // Whether it is open just after.
    pub(crate) fn is_open_after(self) -> bool
        requires { 0 < self.word }
        ensures { result ≡ is_open_after self.word }
    {
        (self.word - 1) % 2 == 1
    }
}
