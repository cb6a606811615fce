//! Reading a file for a command.
ghost use Rattle.runs.specs.Replied.{IsRead};
ghost use Rattle.runs.specs.Roles.{IsRole, file_of};

use crate::reply::Reply;
use crate::role::Role;
use std::alloc::Global;
use tml_io::{Inputs, List, ReadAll, read_all};

/// Reads a file of a role whole, within the limit of the role.
///
/// # Errors
///
/// The reply that a device failed, that the file is too long, or that there is no memory.
pub fn read<I: Inputs>(
    alloc: Global,
    inputs: &mut I,
    role: Role,
    name: &str,
) -> Result<List<u8>, Reply>
    requires { IsRole role }
    ensures { IsRead (file_of role name.now) result (I.known inputs.old) (I.known inputs.new) }
{
    match read_all(alloc, inputs, name, role.limit) {
        Ok(bytes) => Ok(bytes),
        Err(ReadAll::ReadFault) => Err(Reply::ReadFault),
        Err(ReadAll::TooLong) => Err(Reply::TooLong(role.line)),
        Err(ReadAll::Memory) => Err(Reply::NoMemory),
    }
}
