// Reads the blocks and statements of the lines section.
ghost use Rattle.std.specs.Prelude.{◌≡◌, ℕ, ◌+◌, ◌-◌, ◌<◌, [], length, IfErr, MatchResult, OnOk};
ghost use Rattle.cards.specs.Trees.{statement_of};
ghost use Rattle.loading.specs.declared.refusal.LineFault.TheVariants.{Misplaced, TooDeep};
ghost use Rattle.loading.specs.Lines.{line_of};
ghost use Rattle.loading.specs.Texts.{upcoming};
ghost use Rattle.loading.specs.Blocks as Blocks;
ghost use Rattle.loading.specs.Blocks.{AnswerIs, Forward, mark, mark_of, section_of, closed_block_of, read_section, read_block, statement_by, closer};
ghost use Rattle.loading.specs.Loading.{section_ended};

use crate::cursor::Cursor;
use crate::line::{Keyword, Line};
use crate::refusal::{LineFault, LoadRefusal};
use crate::texts::Numbered;
use cards::{Access, Block, Level, Pointer, Section, Statement, Step};
use std::alloc::Global;

#[derive(Clone, Copy)]
pub enum SectionKind {
    Task,
    With,
}

// What ended a block, with the line of the text. Three cases, each met otherwise: no Option says as much.
#[derive(Clone, Copy)]
pub enum Closer {
    End { line: u32 },
    Else { line: u32 },
    Out,
}

// What a line of a declaration section declares.
#[derive(Clone, Copy)]
pub struct Declared {
    access: Access,
    level: Level,
    pointer: Pointer,
}

// What a line says in a declaration section: a declaration, or nothing where it ends the section.
fn in_section(said: Numbered, kind: SectionKind) -> Result<Option<Declared>, LineFault>
    ensures mark { (l : ℕ) → mark_of result l ≡ mark (line_of said.line) kind l }
    ensures fault { IfErr result (λ e. e ≡ Misplaced said.number) }
{
    match (said.line, kind) {
        // A withdrawn declaration stands only inside `with`.
        (
            Line::Declare {
                level: Level::Absent,
                ..
            },
            SectionKind::Task,
        ) => Err(LineFault::Misplaced { line: said.number }),
        (
            Line::Declare {
                access,
                level,
                pointer,
            },
            _,
        ) => Ok(Some(Declared {
            access,
            level,
            pointer,
        })),
        (Line::Keyword(Keyword::Do), SectionKind::Task)
        | (Line::Keyword(Keyword::Cont), SectionKind::With) => Ok(None),
        _ => Err(LineFault::Misplaced { line: said.number }),
    }
}

// Reads the declarations up to the line that ends the section. Each reader says how far it moved the cursor: that ties
// two values, so it is a clause and in no type.
fn read_section(
    heap: Global,
    lines: &mut Cursor<'_>,
    kind: SectionKind,
) -> Result<Section, LoadRefusal>
    ensures value { AnswerIs section_of result (read_section lines.old.header kind [] (upcoming lines.old) lines.old.line) lines.new }
    ensures forward { OnOk result (Forward lines.old lines.new) }
{
    let mut section = Section::new(heap);
    loop {
        let line = lines.line;
        let Some(said) = lines.next()? else {
            return Err(LineFault::Open {
                line: lines.number(),
            }
            .into());
        };
        let Some(declared) = in_section(said, kind)? else {
            return Ok(section);
        };
        section.push(line, declared.access, declared.level, declared.pointer)?;
    }
}

// What a line does to a block: ends it, or begins a statement.
fn close_block(said: Numbered) -> Option<Closer>
    ensures { result ≡ closer (line_of said.line) said.number }
{
    match said.line {
        Line::Keyword(Keyword::End) => Some(Closer::End { line: said.number }),
        Line::Keyword(Keyword::Else) => Some(Closer::Else { line: said.number }),
        _ => None,
    }
}

impl Closer {
    // A statement's block is ended by `end`; `next` is the line of the text after the last that was read.
    fn ended(self, next: u32) -> Result<(), LineFault>
        ensures { result ≡ Blocks.ended self next }
    {
        match self {
            Closer::End { .. } => Ok(()),
            Closer::Else { line } => Err(LineFault::Misplaced { line }),
            Closer::Out => Err(LineFault::Open { line: next }),
        }
    }

    // Main's block is ended by the end of the section.
    pub(crate) fn ended_section(self) -> Result<(), LineFault>
        ensures { result ≡ section_ended self }
    {
        match self {
            Closer::End { line } | Closer::Else { line } => Err(LineFault::Misplaced { line }),
            Closer::Out => Ok(()),
        }
    }
}

// The depth that is left inside a block.
fn inner_depth(depth: u8, line: u32) -> Result<u8, LineFault>
    ensures { MatchResult result (λ d. (0 < depth) × (d ≡ depth - 1)) (λ e. (depth ≡ 0) × (e ≡ TooDeep line)) }
{
    depth.checked_sub(1).ok_or(LineFault::TooDeep { line })
}

// Reads a block and what ends it; blocks below it may nest `depth` deep.
#[cycle(read_block_read_statement)]
pub(crate) fn read_block(
    heap: Global,
    lines: &mut Cursor<'_>,
    depth: u8,
) -> Result<(Block, Closer), LoadRefusal>
    ensures value { (f : ℕ) → length (upcoming lines.old) < f → AnswerIs closed_block_of result (read_block lines.old.header lines.old.objects f (upcoming lines.old) lines.old.line depth) lines.new }
    ensures forward { OnOk result (Forward lines.old lines.new) }
{
    let line = lines.line;
    let Some(said) = lines.next()? else {
        return Ok((Block::End, Closer::Out));
    };
    if let Some(closer) = close_block(said) {
        return Ok((Block::End, closer));
    }
    let statement = read_statement(heap, said, lines, depth)?;
    let (rest, closer) = read_block(heap, lines, depth)?;
    let step = Box::new(
        heap,
        Step {
            line,
            statement,
            rest,
        },
    )?;
    Ok((Block::Then(step), closer))
}

// Reads what is left of the statement that `said` begins.
#[cycle(read_block_read_statement)]
fn read_statement(
    heap: Global,
    said: Numbered,
    lines: &mut Cursor<'_>,
    depth: u8,
) -> Result<Statement, LoadRefusal>
    ensures value { (f l : ℕ) → said.number ≡ lines.old.header + l → length (upcoming lines.old) < f → AnswerIs statement_of result (statement_by lines.old.header lines.old.objects (read_block lines.old.header lines.old.objects f) (line_of said.line) l (upcoming lines.old) lines.old.line depth) lines.new }
    ensures forward { OnOk result (Forward lines.old lines.new) }
{
    match said.line {
        Line::Set { word, literal } => Ok(Statement::Set { word, literal }),
        Line::Add { left, right } => Ok(Statement::Add { left, right }),
        Line::Point { pointer, object } => {
            if object >= lines.objects {
                return Err(LineFault::NoObject { line: said.number }.into());
            }
            Ok(Statement::Point { pointer, object })
        }
        Line::Alias { left, right } => Ok(Statement::Alias { left, right }),
        Line::Read { word, pointer } => Ok(Statement::Read { word, pointer }),
        Line::Write { pointer, word } => Ok(Statement::Write { pointer, word }),
        Line::Join { pointer, word } => Ok(Statement::Join { pointer, word }),
        Line::If { left, right } => {
            let depth = inner_depth(depth, said.number)?;
            let (first, closer) = read_block(heap, lines, depth)?;
            if let Closer::Else { .. } = closer {
                let (second, closer) = read_block(heap, lines, depth)?;
                closer.ended(lines.number())?;
                return Ok(Statement::IfElse {
                    left,
                    right,
                    first,
                    second,
                });
            }
            closer.ended(lines.number())?;
            Ok(Statement::If { left, right, first })
        }
        Line::Repeat { count } => {
            let depth = inner_depth(depth, said.number)?;
            let (body, closer) = read_block(heap, lines, depth)?;
            closer.ended(lines.number())?;
            Ok(Statement::Repeat { count, body })
        }
        Line::Keyword(Keyword::Task) => {
            let depth = inner_depth(depth, said.number)?;
            let section = read_section(heap, lines, SectionKind::Task)?;
            let (body, closer) = read_block(heap, lines, depth)?;
            closer.ended(lines.number())?;
            Ok(Statement::Task { section, body })
        }
        Line::Keyword(Keyword::With) => {
            let section = read_section(heap, lines, SectionKind::With)?;
            Ok(Statement::With { section })
        }
        Line::Declare { .. } | Line::Keyword(_) => {
            Err(LineFault::Misplaced { line: said.number }.into())
        }
    }
}
