//! The children that a body forks, and which of them it has waited for.

ghost use Rattle.std.specs.Prelude.{◌≡◌, ◌++◌, ◌∷◌, [], map, false, IfOk};
ghost use Rattle.xs_script.specs.Commands.{is_own, is_own_awaited, own_child, marked, own_after};

use std::alloc::AllocError;
use xs_model::{Command, Items, Name};

/// A child that an earlier line of the open body forks.
#[derive(Drop)]
pub struct OwnChild {
    /// Its name.
    pub name: Name,
    /// Whether a line of the body waits for it, and none lets it go on since.
    pub awaited: bool,
}

impl OwnChild {
    /// Says that it is awaited from here on, or isn't, where it has the name.
    fn mark(&mut self, name: &Name, awaited: bool)
        ensures { self.new ≡ marked name.now awaited self.old }
    {
        if self.name.as_slice() == name.as_slice() {
            self.awaited = awaited;
        }
    }
}

/// Whether one of the children has the name.
pub(crate) fn is_own(own: &[OwnChild], name: &Name) -> bool
    ensures { result ≡ is_own own.now name.now }
{
    let name = name.as_slice();
    own.iter().any(|child| child.name.as_slice() == name)
}

/// Whether one that is awaited has it.
pub(crate) fn is_own_awaited(own: &[OwnChild], name: &Name) -> bool
    ensures { result ≡ is_own_awaited own.now name.now }
{
    let name = name.as_slice();
    own.iter()
        .any(|child| child.name.as_slice() == name && child.awaited)
}

/// The children of a body after one command more.
pub(crate) fn own_after(
    own: Items<OwnChild>,
    command: &Command,
) -> Result<Items<OwnChild>, AllocError>
    ensures { IfOk result (λ after. after ≡ own_after own command.now) }
{
    match command {
        Command::Fork { name } => with_child(own, name),
        Command::Wait { name } => Ok(all_marked(own, name, true)),
        Command::Cont { name } => Ok(all_marked(own, name, false)),
        _ => Ok(own),
    }
}

/// The children and one more, which isn't awaited.
fn with_child(mut own: Items<OwnChild>, name: &Name) -> Result<Items<OwnChild>, AllocError>
    ensures { IfOk result (λ after. after ≡ own ++ own_child name.now false ∷ []) }
{
    own.push(OwnChild {
        name: Name::from_slice(name.as_slice()),
        awaited: false,
    })?;
    Ok(own)
}

/// The children, of which the one that has the name is awaited from here on, or isn't.
fn all_marked(own: Items<OwnChild>, name: &Name, awaited: bool) -> Items<OwnChild>
    ensures { result ≡ map (marked name.now awaited) own }
{
    let mut children = own.into_vec();
    'children: for child in children.iter_mut() {
        child.mark(name, awaited);
    }
    Items::from_vec(children)
}
