// Script and graph: a program file read and validated, its syntax trees, and its program graph.
#![tactic(auto)]

pub mod decoding;
pub mod drawing;
pub mod file;
pub mod kinds;
pub mod prepared;
pub mod reader;
pub mod validation;

use signs::{Comparison, Operator};

// The three tables of entries of a file.
#[derive(Clone, Copy)]
pub enum Table {
    Arithmetic,
    Boolean,
    Commands,
}

// An entry of a table: its kind and three operands.
#[derive(Clone, Copy, Default)]
pub struct Entry {
    pub kind: u8,
    pub p: u16,
    pub q: u16,
    pub r: u16,
}

// Where the content of a field starts, and how many entries it has.
#[derive(Clone, Copy)]
pub struct Span {
    pub start: usize,
    pub count: u16,
}

// Where a file has its names and its tables.
#[derive(Clone, Copy)]
pub struct Layout {
    pub names: Span,
    pub arithmetic: Span,
    pub boolean: Span,
    pub commands: Span,
}

// The sorts of entries that an operand can refer to.
#[derive(Clone, Copy)]
pub enum Sort {
    Expression,
    Condition,
    Command,
    Guarded,
}

// The number of the question whose answer is no, and the byte of the file that it concerns (0 where the question has no place).
// The number is the question's name for every reader, and the status that C gets: an enum of the twenty would be a second table of them, no plainer.
#[derive(Clone, Copy)]
pub struct Refusal {
    pub number: u8,
    pub offset: usize,
}

// What drawing the graph replies: how many nodes and edges it has.
#[derive(Clone, Copy)]
pub struct Drawn {
    pub nodes: u16,
    pub edges: u16,
}

// What an arithmetic entry is: a number, a variable, an element of an array at an index entry, or an operator on two entries.
#[derive(Clone, Copy)]
pub enum ArithNode {
    Number(i32),
    Variable(u16),
    Element(u16, u16),
    Operator(Operator, u16, u16),
}

// What a boolean entry is: true, a comparison of two arithmetic entries, b ∧ b, b && b, or ¬ b.
#[derive(Clone, Copy)]
pub enum BooleanNode {
    True,
    Comparison(Comparison, u16, u16),
    Both(u16, u16),
    AndThen(u16, u16),
    Not(u16),
}

// The two jumps, of the innermost do around them: break to its last node, continue to its first.
#[derive(Clone, Copy)]
pub enum Jump {
    Break,
    Continue,
}

// The two ways to draw a program's graph: document 01's, in which guards that hold together leave a choice, and the deterministic one, in which a guard is
// passed only where all earlier guards of its if or do are false.
#[derive(Clone, Copy)]
pub enum Construction {
    Nondeterministic,
    Deterministic,
}

// What a command entry is.
#[derive(Clone, Copy)]
pub enum CommandNode {
    Skip,
    Assign(u16, u16),
    Store(u16, u16, u16),
    Sequence(u16, u16),
    Conditional(u16),
    Iteration(u16),
    Guarded(u16, u16),
    Choice(u16, u16),
    Jump(Jump),
}

// What an edge's action is: nothing, an assignment, a store, a condition that must hold, the exit of the do whose operand is a command entry, or, in the
// deterministic graph, a guard's own condition, before which those of the lower edges out of its node must fail.
#[derive(Clone, Copy)]
pub enum ActionNode {
    Nothing,
    Assign(u16, u16),
    Store(u16, u16, u16),
    Holds(u16),
    Exit(u16),
    Guard(u16),
}

// The four numbers of an edge, as its bytes give them: source and target, the action's kind and its entry.
#[derive(Clone, Copy)]
pub struct EdgeBytes {
    pub source: u16,
    pub target: u16,
    pub kind: u8,
    pub entry: u16,
}

// What is allowed of a field: its tag, the bytes of an entry, and how many entries.
#[derive(Clone, Copy)]
pub struct Field {
    pub tag: u8,
    pub width: u16,
    pub least: u16,
    pub most: u16,
}

// The head of a field: where it starts, its tag and its content's length, and where its content and the next field start.
#[derive(Clone, Copy)]
pub struct FieldHead {
    pub start: usize,
    pub tag: u8,
    pub length: u16,
    pub content: usize,
    pub next: usize,
}

// What stands at the four fields of a program and after them, where the sheet program's input has its start list.
#[derive(Clone, Copy)]
pub struct FieldHeads {
    pub names: Result<FieldHead, usize>,
    pub arithmetic: Result<FieldHead, usize>,
    pub boolean: Result<FieldHead, usize>,
    pub commands: Result<FieldHead, usize>,
    pub initial: Result<FieldHead, usize>,
}

// The field reader: a file's bytes and a place in them.
#[derive(Clone, Copy)]
pub struct FieldReader<'a> {
    pub bytes: &'a [u8],
    pub at: usize,
}
