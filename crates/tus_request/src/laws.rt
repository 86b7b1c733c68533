//! Laws about the answers to a stream. The functions do nothing; their contracts are the laws.
ghost use Rattle.std.specs.Prelude.{◌≡◌, ℕ, List, [], Some};
ghost use Rattle.enc_model.specs.Indexes.{offers};
ghost use Rattle.httparse.specs.Grammar.{RequestHead, ReadsRequest};
ghost use Rattle.tus_request.specs.Reading.{request_of};
ghost use Rattle.tus_request.specs.Answers.{Answer, Judged, answer_of};
ghost use Rattle.tus_request.specs.Requests.{Request, Asks};
ghost use Rattle.tus_request.specs.Valid.{IsValidRequest};
ghost use Rattle.tus_request.specs.Grammar.{IsAnswer};
ghost use Rattle.tus_request.specs.Steady.{IsSteady};
ghost use Rattle.tus_request.specs.Value.{IsValue, value_of};

use enc_index::IndexSet;

/// A stream has at most one answer.
pub fn one_answer(bytes: &[u8], set: &IndexSet)
    ensures { (x y : Answer) → IsAnswer (offers set.now) bytes.now x → IsAnswer (offers set.now) bytes.now y → x ≡ y }
{}

/// The answer to the start of a stream doesn't depend on what follows.
#[tactic(auto, using(crate::proofs::Prefixes::steady))]
pub fn steady_answers(set: &IndexSet)
    ensures { IsSteady (answer_of (offers set.now)) }
{}

/// Bytes are parsed as a request head exactly if they are its print by the grammar.
#[tactic(auto, using(crate::proofs::ReadingLemmas::finds, crate::proofs::ReadingLemmas::found_reads))]
pub fn head_read(head: &[u8])
    ensures finds { (h : RequestHead) → ReadsRequest head.now h [] → request_of head.now ≡ Some h }
    ensures reads { (h : RequestHead) → request_of head.now ≡ Some h → ReadsRequest head.now h [] }
{}

/// A text is the padded Base64 of at most one list of bytes.
pub fn one_value(text: &[u8])
    ensures { (bytes : List ℕ) → IsValue text.now bytes → value_of text.now ≡ Some bytes }
{}

/// A request that passed the checks is valid: its numbers are below 10^18, its encodings are offered, and its metadata
/// is printable ASCII.
#[tactic(auto, using(crate::proofs::ValidRequests::request_valid))]
pub fn valid_requests(bytes: &[u8], set: &IndexSet)
    ensures { (n : ℕ) (r : Request) → answer_of (offers set.now) bytes.now ≡ Judged n (Asks r)
        → IsValidRequest (offers set.now) r }
{}
