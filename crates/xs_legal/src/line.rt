//! What a local line does to its task.

ghost use Rattle.std.specs.Prelude.{◌≡◌, ◌+◌, ◌<◌, ◌^◌};
ghost use Rattle.xs_base.specs.Task.{IsPrivateTask};
ghost use Rattle.xs_legal.specs.Worked.{worked};
ghost use Rattle.xs_base.specs.Tile.{feature_error};
ghost use Rattle.xs_model.specs.Line.{asked, local_after};
ghost use Rattle.xs_model.specs.Script.{IsCommand};

use xs_model::Command;
use xs_private::Private;

/// Runs a local line of the task, which is at the next line then, or where a return from its handler takes it.
pub fn run_line(task: &mut Private, command: &Command)
    requires valid { IsPrivateTask task.old.file.rows task.old }
    requires known { IsCommand task.old.file.rows command.now }
    requires place { task.old.place + 1 < 2 ^ 32 }
    ensures { task.new ≡ local_after task.old command.now }
{
    if matches!(command, Command::Sigreturn) && task.handling() {
        task.go_back();
        return;
    }
    work(task, command);
    task.pass_line();
}

/// Does what a line asks of its task, where that isn't a return from its handler.
fn work(task: &mut Private, command: &Command)
    requires valid { IsPrivateTask task.old.file.rows task.old }
    requires known { IsCommand task.old.file.rows command.now }
    ensures { task.new ≡ worked task.old command.now }
{
    match command {
        Command::Set { reg, bytes } => task.write(reg.as_slice(), bytes),
        Command::Tilerelease => task.release_tiles(),
        Command::Perm { feature } => ask(task, *feature),
        Command::Poke { at, bytes } => task.poke_frame(*at, bytes),
        Command::Bpoke { at, bytes } => task.poke_buffer(*at, bytes),
        _ => {}
    }
}

/// Asks for the permission to use a component.
fn ask(task: &mut Private, feature: u32)
    ensures { task.new ≡ asked (feature_error task.old.file.rows feature) task.old }
{
    if task.request_error(feature).is_none() {
        task.permit();
    }
}
