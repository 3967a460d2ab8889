// Which of the four readings is asked for.
ghost use Rattle.std.specs.Prelude.{◌≡◌};
ghost use Rattle.attr_list.specs.Entry.{is_block, full_line};

#[derive(Clone, Copy, Debug, PartialEq, Eq)]
pub enum Entry {
    Block,
    BlockMacro,
    Inline,
    Link,
}

impl Entry {
    // Whether the list is the rest of a full line, which its last token closes.
    pub(crate) fn is_full_line(self) -> bool
        ensures { result ≡ full_line self }
    {
        match self {
            Entry::Block | Entry::BlockMacro => true,
            Entry::Inline | Entry::Link => false,
        }
    }

    // Whether shorthand is known: to the block entry alone.
    pub(crate) fn is_block(self) -> bool
        ensures { result ≡ is_block self }
    {
        self == Entry::Block
    }
}
