//! Laws of programs: functions that do nothing, each with the law as its contract.
ghost use Rattle.runs.specs.EveryReply.{HasExactlyOneReply, HasNext};
ghost use Rattle.runs.specs.Missing.{MissingBreaksOff, ReadFaultHasFile};
ghost use Rattle.runs.specs.OneReply.{HasOneNext, HasOneReply, HasOneText};
ghost use Rattle.std.specs.Prelude.{List, ℕ};

use crate::program::Program;
use crate::status::Status;

/// After what was read one thing comes next: one file is read, or one status is answered.
pub fn one_status<P: Program>()
    ensures { (words : List (List ℕ)) → HasOneNext (P.rows words) }
{
    P::all_are_answered();
}

/// If the text of a status is not free, what was read determines it.
pub fn one_text<P: Program>()
    ensures { (words : List (List ℕ)) (contents : List (List ℕ)) (status : Status)
        → (P.is_free words contents status → ⊥) → HasOneText (P.rows words) contents status }
{
    P::all_are_answered();
}

/// Over known files there is one reply that is neither a fault of a device nor out of memory.
pub fn one_reply<P: Program>()
    ensures { (words : List (List ℕ)) → HasOneReply (P.rows words) }
{
    P::all_are_answered();
}

/// Whatever the words are: after what can be read, something comes next; and so over all files that hold what is reached
/// there is exactly one reply that is neither a fault of a device nor out of memory.
pub fn every_question_is_answered<P: Program>()
    ensures next { (words : List (List ℕ)) → HasNext (P.rows words) }
    ensures reply { (words : List (List ℕ)) → HasExactlyOneReply (P.rows words) }
{
    P::all_are_answered();
}

/// If a file that the words come to reading is not there, each reply is a fault of reading or out of memory; and a fault
/// of reading is a reply only if they come to reading a file.
pub fn missing_files_are_faults<P: Program>()
    ensures missing { (words : List (List ℕ)) → MissingBreaksOff (P.rows words) }
    ensures read_fault { (words : List (List ℕ)) → ReadFaultHasFile (P.rows words) }
{
    P::all_are_answered();
}
