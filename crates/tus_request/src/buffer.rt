//! A request head that arrives in pieces.
ghost use Rattle.std.specs.Prelude.{◌≡◌, ◌++◌, ◌≤◌, [], length, take, vec_len, is_ok, IfOk, if◌then◌else◌};
ghost use Rattle.tus_request.specs.declared.heads.TheConstants.{MOST_HEAD};
ghost use Rattle.enc_model.specs.Indexes.{offers};
ghost use Rattle.tus_request.specs.Answers.{answer_of};
ghost use Rattle.tus_request.specs.Searches.{after_bytes};
ghost use Rattle.tus_request.specs.declared.search.Search.TheVariants.{Leading};
ghost use Rattle.tus_request.specs.Shown.{answer_shown};

use crate::heads::{MOST_HEAD, parse_by};
use crate::places::Routes;
use crate::requests::Parsed;
use crate::search::Search;
use enc_index::IndexSet;
use std::alloc::{AllocError, Global};

/// The bytes of an unfinished head, at most 8,192. Empty if no head has begun.
#[derive(Drop)]
pub struct HeadBuffer {
    bytes: Vec<u8>,
    // The state of the search for the head's end after these bytes, so that no byte is searched twice.
    search: Search,
    ghost short: { vec_len bytes ≤ MOST_HEAD },
    ghost searched: { search ≡ after_bytes Leading bytes.items },
}

impl HeadBuffer {
    ghost use Rattle.tus_request.specs.Buffers.{head_bytes, unfinished, is_judged};

    /// An empty buffer. It needs no memory.
    pub fn new(alloc: Global) -> Self
        ensures { head_bytes result ≡ [] }
    {
        HeadBuffer {
            bytes: Vec::new(alloc),
            search: Search::Leading,
        }
    }

    /// How many bytes of the head have arrived.
    pub fn len(&self) -> usize
        ensures { result ≡ length (head_bytes self.now) }
    {
        self.bytes.len()
    }

    /// Reads the head together with a further piece of the stream; the result is that of `parse` over both. Of the
    /// piece as many bytes are copied as a head still may have, and they alone are searched for the head's end; a head
    /// that is whole is measured once more.
    ///
    /// A head that is still unfinished is stored. Otherwise the buffer is empty afterwards.
    ///
    /// # Errors
    ///
    /// `AllocError` if the buffer can't grow, or if `parse` is out of memory.
    pub fn read(
        &mut self,
        alloc: Global,
        piece: &[u8],
        set: &IndexSet,
    ) -> Result<Parsed, AllocError>
        ensures function { IfOk result
            (λ answer. answer_shown answer ≡ answer_of (offers set.now) (head_bytes self.old ++ piece.now)) }
        ensures rest { IfOk result (λ answer. head_bytes self.new ≡ unfinished (answer_shown answer)
            (head_bytes self.old ++ piece.now)) }
    {
        self.take(alloc, piece, set, None)
    }

    /// Reads as `read` does, and looks the path up in these routes.
    ///
    /// # Errors
    ///
    /// `AllocError` as for `read`.
    pub fn read_by(
        &mut self,
        alloc: Global,
        piece: &[u8],
        set: &IndexSet,
        routes: &Routes,
    ) -> Result<Parsed, AllocError>
        ensures function { IfOk result
            (λ answer. answer_shown answer ≡ answer_of (offers set.now) (head_bytes self.old ++ piece.now)) }
        ensures rest { IfOk result (λ answer. head_bytes self.new ≡ unfinished (answer_shown answer)
            (head_bytes self.old ++ piece.now)) }
    {
        self.take(alloc, piece, set, Some(routes))
    }

    /// Reads the head together with a further piece, by routes if there are any.
    fn take(
        &mut self,
        alloc: Global,
        piece: &[u8],
        set: &IndexSet,
        routes: Option<&Routes>,
    ) -> Result<Parsed, AllocError>
        ensures function { IfOk result
            (λ answer. answer_shown answer ≡ answer_of (offers set.now) (head_bytes self.old ++ piece.now)) }
        ensures rest { IfOk result (λ answer. head_bytes self.new ≡ unfinished (answer_shown answer)
            (head_bytes self.old ++ piece.now)) }
    {
        self.fill(piece)?;
        if !self.is_judged() {
            return Ok(Parsed::More);
        }
        let parsed = parse_by(alloc, &self.bytes, set, routes)?;
        self.clear();
        Ok(parsed)
    }

    /// Whether the head's end has arrived, or as many bytes as a head may have.
    fn is_judged(&self) -> bool
        ensures { result ≡ is_judged (head_bytes self.now) }
    {
        self.search.is_over() || self.bytes.len() >= MOST_HEAD
    }

    /// Empties the buffer.
    fn clear(&mut self)
        ensures { head_bytes self.new ≡ [] }
    {
        self.bytes.clear();
        self.search = Search::Leading;
    }

    /// Appends those bytes of the piece that may belong to the head.
    fn fill(&mut self, piece: &[u8]) -> Result<(), AllocError>
        ensures { head_bytes self.new ≡ (if is_ok result then take MOST_HEAD
            (head_bytes self.old ++ piece.now) else head_bytes self.old) }
    {
        let room = MOST_HEAD - self.bytes.len();
        let prefix = &piece[..piece.len().min(room)];
        self.bytes.extend_from_slice(prefix)?;
        self.search = self.search.after(prefix);
        Ok(())
    }
}
