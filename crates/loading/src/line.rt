// What one line of the lines section says.
use cards::{Access, Level, Local, Pointer};

// The words that stand alone on a line.
#[derive(Clone, Copy)]
pub enum Keyword {
    Else,
    Task,
    Do,
    With,
    Cont,
    End,
}

// What the first word of a line names.
#[derive(Clone, Copy)]
pub enum Verb {
    Set,
    Add,
    Point,
    Alias,
    Read,
    Write,
    Join,
    If,
    Repeat,
    Declare(Access, Level),
    Bare(Keyword),
}

// Not the tree's `Statement`, whose words it shares: a line is copied, and holds no block.
#[derive(Clone, Copy)]
pub enum Line {
    Set {
        word: Local,
        literal: i16,
    },
    Add {
        left: Local,
        right: Local,
    },
    Point {
        pointer: Pointer,
        object: u8,
    },
    Alias {
        left: Pointer,
        right: Pointer,
    },
    Read {
        word: Local,
        pointer: Pointer,
    },
    Write {
        pointer: Pointer,
        word: Local,
    },
    Join {
        pointer: Pointer,
        word: Local,
    },
    If {
        left: Local,
        right: Local,
    },
    Repeat {
        count: u8,
    },
    Declare {
        access: Access,
        level: Level,
        pointer: Pointer,
    },
    Keyword(Keyword),
}
