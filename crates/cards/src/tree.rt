// The code of a card as a tree: a block is made of statements, and a statement may hold blocks.
use crate::names::{Local, Pointer};
use crate::section::Section;

// A type of its own and no Option of a boxed step: `End` and `Then` are the cases that the definitions tell apart.
#[cycle(block)]
#[derive(Drop)]
pub enum Block {
    End,
    Then(Box<Step>),
}

// A statement with its line, and what follows it.
#[cycle(block)]
#[derive(Drop)]
pub struct Step {
    pub line: u32,
    pub statement: Statement,
    pub rest: Block,
}

#[cycle(block)]
#[derive(Drop)]
pub enum Statement {
    Set {
        word: Local,
        literal: i16,
    },
    Add {
        left: Local,
        right: Local,
    },
    Point {
        pointer: Pointer,
        object: u8,
    },
    Alias {
        left: Pointer,
        right: Pointer,
    },
    Read {
        word: Local,
        pointer: Pointer,
    },
    Write {
        pointer: Pointer,
        word: Local,
    },
    Join {
        pointer: Pointer,
        word: Local,
    },
    If {
        left: Local,
        right: Local,
        first: Block,
    },
    IfElse {
        left: Local,
        right: Local,
        first: Block,
        second: Block,
    },
    Repeat {
        count: u8,
        body: Block,
    },
    Task {
        section: Section,
        body: Block,
    },
    With {
        section: Section,
    },
}
