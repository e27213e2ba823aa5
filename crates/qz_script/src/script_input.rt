//! A source that is read piece by piece and given out line by line.

ghost use Rattle.std.specs.Prelude.{◌≡◌, ◌+◌, ◌<◌, ◌≤◌, [], length, Contains, IfOk, OnErr, MatchBool, MatchResult};
ghost use Rattle.qz_script.specs.Inputs.{Ends, FillStops, Fills, GivesNext, GoesOn, NextStops, given_last};

use crate::script_line::ScriptLine;
use qz_ending::Stop;
use qz_outside::{Source, read_piece};
use qz_text::NoMemory;
use qz_wire::cut;
use std::alloc::Global;
use std::marker::Model;

/// What a source gives next.
#[derive(Drop)]
pub enum Given {
    /// A line that a line feed ended.
    Line(ScriptLine),
    /// The last line, which the end of the source ended.
    Last(ScriptLine),
    /// Nothing is left.
    End,
}

/// What is given at the end of the source: a last line, if it has a byte.
fn given_last(line: ScriptLine) -> Given
    ensures { result ≡ given_last line }
{
    match line {
        ScriptLine::Kept(bytes) if bytes.items.is_empty() => Given::End,
        line => Given::Last(line),
    }
}

/// The bytes of a source that were read and not given out yet. No more than `limit` bytes are read in all.
#[derive(Drop)]
pub struct ScriptInput {
    piece: Vec<u8>,
    /// So many bytes of the piece were given out.
    at: usize,
    read: usize,
    limit: usize,
}

impl Model for ScriptInput {
    ghost use Rattle.std.specs.Prelude.{◌≡◌, ◌<◌, ◌≤◌, ◌^◌, drop, vec_len};
    ghost use Rattle.qz_script.specs.Inputs.{Buffer};

    ghost Value = { Buffer };

    ghost view = { λ i. record { held = drop i.at i.piece.items; read = i.read; limit = i.limit } };

    ghost invariant = { λ i. (i.at ≤ vec_len i.piece) × (i.read ≤ i.limit) × (i.limit < 2 ^ 32) };
}

impl ScriptInput {
    ghost use Rattle.std.specs.Prelude.{◌^◌};

    /// Before the first reading.
    pub fn new(alloc: Global, limit: usize) -> ScriptInput
        requires { limit < 2 ^ 32 }
        ensures { result ≡ record { held = []; read = 0; limit = limit } }
    {
        ScriptInput {
            piece: Vec::new(alloc),
            at: 0,
            read: 0,
            limit,
        }
    }

    /// So many of `most` bytes may be read at once; at the limit one byte tells whether the source goes on.
    fn wanted(&self, most: usize) -> usize
        requires { 0 < most }
        ensures some { 0 < result }
        ensures room { result ≤ most }
        ensures within { self.now.read < self.now.limit → self.now.read + result ≤ self.now.limit }
        ensures last { self.now.read ≡ self.now.limit → result ≡ 1 }
    {
        if self.read < self.limit {
            most.min(self.limit - self.read)
        } else {
            1
        }
    }

    /// Reads a piece through the room, in place of what is held. False is the end of the source, and `TooLong` says that it goes on
    /// behind the limit.
    fn fill<S: Source>(&mut self, source: &mut S, room: &mut [u8]) -> Result<bool, Stop>
        requires { 0 < length room.old }
        ensures { MatchResult result (Fills self.old self.new (S.left source.old) (S.left source.new) (S.faults source.old) (S.faults source.new))
            (FillStops self.old (S.left source.old) (S.left source.new) (S.faults source.old) (S.faults source.new)) }
    {
        let wanted = self.wanted(room.len());
        self.at = 0;
        self.piece.clear();
        let count = read_piece(source, &mut room[..wanted], &mut self.piece)?;
        if count == 0 {
            return Ok(false);
        }
        if self.read == self.limit {
            return Err(Stop::TooLong);
        }
        self.read += count;
        Ok(true)
    }

    /// Adds what is held up to its first line feed to a line, which is then ended; or all that is held, where there is none.
    fn lengthen(&mut self, line: ScriptLine) -> Result<(ScriptLine, bool), NoMemory>
        ensures longer { IfOk result (λ r. MatchBool r.1 (Ends self.old self.new line r.0) (GoesOn self.old self.new line r.0)) }
        ensures unchanged { OnErr result (self.new ≡ self.old) }
        ensures within { self.new.read ≤ self.new.limit }
    {
        let held = &self.piece[self.at..];
        match cut(held, b'\n') {
            Some((piece, _)) => {
                let used = piece.len() + 1;
                let longer = line.with_piece(piece)?;
                self.at += used;
                Ok((longer, true))
            }
            None => {
                let longer = line.with_piece(held)?;
                self.at = self.piece.len();
                Ok((longer, false))
            }
        }
    }

    /// The next line. Nothing is read while a line feed is held, and what is read goes through the room.
    pub fn next<S: Source>(
        &mut self,
        alloc: Global,
        source: &mut S,
        room: &mut [u8],
    ) -> Result<Given, Stop>
        requires { 0 < length room.old }
        ensures given { MatchResult result (GivesNext self.old self.new (S.left source.old) (S.left source.new) (S.faults source.old) (S.faults source.new))
            (NextStops self.old (S.left source.old) (S.left source.new) (S.faults source.old) (S.faults source.new)) }
        ensures prompt { Contains self.old.held 10 → source.new ≡ source.old }
    {
        let mut line = ScriptLine::empty(alloc);
        loop {
            let (longer, ended) = self.lengthen(line)?;
            if ended {
                return Ok(Given::Line(longer));
            }
            line = longer;
            if !self.fill(source, room)? {
                return Ok(given_last(line));
            }
        }
    }
}
