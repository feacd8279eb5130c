// The rules of a bracket's certificate, line by line.
ghost use Rattle.std.specs.Prelude.{◌≡◌};
ghost use Rattle.value_cert.specs.BracketRules.{is_row};

use crate::bracket_cells::BracketCells;
use crate::bracket_entries::CellRow;
use decision_model::Average;
use line_check::LineRules;
use std::alloc::{AllocError, Global};
use value_cert::{FlatGrammar, FlatLine};

// Which row comes next.
#[derive(Clone, Copy, Debug, PartialEq, Eq)]
enum NextRow {
    Bounds,
    Pair,
    Cell,
}

// A row's letter, how many numbers it has, and the first ones.
#[derive(Clone, Copy, Debug)]
struct Row {
    tag: u8,
    count: u32,
    first: i128,
    second: i128,
    third: i128,
}

impl Row {
    // Whether it has this letter and so many numbers.
    fn has(&self, letter: u8, numbers: u32) -> bool
        ensures { result ≡ is_row letter numbers self.now.tag self.now.count }
    {
        self.tag == letter && self.count == numbers
    }
}

/// What the lines of a bracket's certificate have named so far.
#[derive(Drop)]
pub(crate) struct BracketLines<'a> {
    next: NextRow,
    cells: BracketCells<'a>,
}

impl<'a> BracketLines<'a> {
    ghost use Rattle.std.specs.Prelude.{IfOk, if◌then◌else◌, None, Some};
    ghost use Rattle.decision_model.specs.WideAverage.{IsWideAverage};
    ghost use Rattle.flat_check.specs.BracketKnown.{instance_of};
    ghost use Rattle.flat_check.specs.BracketRows.{KnowsRows};
    ghost use Rattle.value_cert.specs.AverageRules.{is_pair};
    ghost use Rattle.value_cert.specs.BracketRules.{FirstCells, no_cells, are_bounds, are_cells_whole, cell_rule, row_rule, bracket_rule, named_bounds, named_pair, named_cell, named_row, named_cells};

    /// No line yet.
    pub(crate) fn new(alloc: Global, average: &'a Average) -> Result<BracketLines<'a>, AllocError>
        requires { IsWideAverage average.now }
        ensures instance { IfOk result (λ lines. instance_of lines.cells ≡ average.now) }
        ensures rows { IfOk result (λ lines. KnowsRows lines no_cells) }
    {
        let cells = BracketCells::new(alloc, average)?;
        Ok(BracketLines {
            next: NextRow::Bounds,
            cells,
        })
    }

    // Takes a row where both bounds stand.
    fn take_bounds(&mut self, row: &Row) -> Option<u32>
        ensures instance { instance_of self.new.cells ≡ instance_of self.old.cells }
        ensures rule { result ≡ (if is_row 103 2 row.now.tag row.now.count
            then (if are_bounds (instance_of self.old.cells) row.now.first row.now.second then None else Some 3) else Some 2) }
        ensures rows { (first : FirstCells) → KnowsRows self.old first → result ≡ None →
            KnowsRows self.new (named_bounds first row.now.first row.now.second) }
    {
        if !row.has(b'g', 2) {
            return Some(2);
        }
        if !self.cells.take_bounds(row.first, row.second) {
            return Some(3);
        }
        self.next = NextRow::Pair;
        None
    }

    // Takes a row where a pair stands.
    fn take_pair(&mut self, row: &Row) -> Option<u32>
        ensures instance { instance_of self.new.cells ≡ instance_of self.old.cells }
        ensures rule { result ≡ (if is_row 115 2 row.now.tag row.now.count
            then (if is_pair (instance_of self.old.cells) row.now.first row.now.second then None else Some 4) else Some 2) }
        ensures rows { (first : FirstCells) → KnowsRows self.old first → result ≡ None →
            KnowsRows self.new (named_pair first row.now.first row.now.second) }
    {
        if !row.has(b's', 2) {
            return Some(2);
        }
        if !self.cells.take_pair(row.first, row.second) {
            return Some(4);
        }
        self.next = NextRow::Cell;
        None
    }

    // Takes a row where a position stands.
    fn take_cell(&mut self, row: &Row) -> Option<u32>
        ensures instance { instance_of self.new.cells ≡ instance_of self.old.cells }
        ensures rule { (first : FirstCells) → KnowsRows self.old first →
            result ≡ (if is_row 112 3 row.now.tag row.now.count
            then cell_rule (instance_of self.old.cells) first row.now.first row.now.second row.now.third else Some 2) }
        ensures rows { (first : FirstCells) → KnowsRows self.old first → result ≡ None →
            KnowsRows self.new (named_cell first row.now.second row.now.third) }
    {
        if !row.has(b'p', 3) {
            return Some(2);
        }
        self.cells.take_cell(&CellRow {
            at: row.first,
            under: row.second,
            over: row.third,
        })
    }

    // Takes a row: the least rule from 2 on that it breaks.
    fn take_row(&mut self, row: &Row) -> Option<u32>
        ensures instance { instance_of self.new.cells ≡ instance_of self.old.cells }
        ensures rule { (first : FirstCells) → KnowsRows self.old first →
            result ≡ row_rule (instance_of self.old.cells) first row.now.tag row.now.count row.now.first row.now.second row.now.third }
        ensures rows { (first : FirstCells) → KnowsRows self.old first → result ≡ None →
            KnowsRows self.new (named_row first row.now.first row.now.second row.now.third) }
    {
        match self.next {
            NextRow::Bounds => self.take_bounds(row),
            NextRow::Pair => self.take_pair(row),
            NextRow::Cell => self.take_cell(row),
        }
    }

    // The rule that an end breaks.
    fn broken_by_end(&self) -> Option<u32>
        ensures { (first : FirstCells) → KnowsRows self.now first →
            result ≡ (if are_cells_whole (instance_of self.now.cells) first then None else Some 2) }
    {
        match self.next {
            NextRow::Cell if self.cells.is_whole() => None,
            _ => Some(2),
        }
    }

    // Takes a line that may stand behind those so far: the least rule from 2 on that it breaks.
    fn take(&mut self, line: &FlatLine) -> Option<u32>
        ensures instance { instance_of self.new.cells ≡ instance_of self.old.cells }
        ensures rule { (first : FirstCells) → KnowsRows self.old first →
            result ≡ bracket_rule (instance_of self.old.cells) first line.now }
        ensures rows { (first : FirstCells) → KnowsRows self.old first → result ≡ None →
            KnowsRows self.new (named_cells first line.now) }
    {
        match *line {
            FlatLine::Head => None,
            FlatLine::Row {
                tag,
                count,
                a,
                b,
                c,
                ..
            } => self.take_row(&Row {
                tag,
                count,
                first: a,
                second: b,
                third: c,
            }),
            FlatLine::End => self.broken_by_end(),
        }
    }
}

impl<'a> LineRules<FlatGrammar> for BracketLines<'a> {
    ghost use Rattle.flat_check.specs.BracketRows.{KnowsBracket};
    ghost use Rattle.value_cert.specs.BracketRules.{bracket_rules};

    type Of = Average;

    ghost rules = { bracket_rules };

    ghost knows = { KnowsBracket };

    fn feed(&mut self, line: &FlatLine) -> Option<u32> {
        self.take(line)
    }
}
