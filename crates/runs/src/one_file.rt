//! Replies by the contents of one file.
ghost use Rattle.std.specs.Prelude.{◌≢◌, ◌≤◌, [], ◌∷◌, length, IfOk};
ghost use Rattle.runs.specs.OneFile.{of_one_file};
ghost use Rattle.runs.specs.Replied.{IsReplyTo};
ghost use Rattle.runs.specs.Roles.{IsRole, file_of};
ghost use Rattle.runs.specs.View.{finding_status, status_of, text_of};

use crate::answer::Answer;
use crate::reading::read;
use crate::reply::Reply;
use crate::role::Role;
use crate::status::Status;
use std::alloc::{AllocError, Global};
use tml_io::Inputs;

/// What is asked of one file.
pub trait FileQuery {
    ghost use Rattle.std.specs.Prelude.{List, ℕ};
    ghost use Rattle.runs.specs.declared.status.Status.{Status};

    /// The answers to the contents of a file.
    ghost says: { Self → List ℕ → Status → List ℕ → Type 0 };

    /// How long a file may be.
    ghost limit: { ℕ };

    /// The answer to these contents.
    fn answer(&self, alloc: Global, bytes: &[u8]) -> Result<Answer, AllocError>
        requires { length bytes.now ≤ limit }
        ensures { IfOk result (λ answer. says self.now bytes.now (finding_status answer.finding) answer.text.items) };
}

/// The reply to what is asked of a file.
pub fn reply_of_file<A: FileQuery, I: Inputs>(
    alloc: Global,
    asked: &A,
    role: Role,
    name: &str,
    inputs: &mut I,
) -> Reply
    requires role { IsRole role }
    requires limit { role.limit ≤ A.limit }
    ensures reply { IsReplyTo I.known (of_one_file (file_of role name.now) (A.says asked.now)) (role.limit ∷ [])
        inputs.old inputs.new (status_of result) (text_of result) }
    ensures usage { status_of result ≢ Status.Usage }
{
    match read(alloc, inputs, role, name) {
        Ok(bytes) => Reply::from_answer(asked.answer(alloc, bytes.as_slice())),
        Err(reply) => reply,
    }
}
