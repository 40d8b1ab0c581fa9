//! Laws of what deliveries and returns make of a task.

ghost use Rattle.std.specs.Prelude.{◌≡◌, false, List};
ghost use Rattle.xs_base.specs.declared.component.Row.{Row};
ghost use Rattle.xs_base.specs.Frame.{Full, frame_of, delivered, return_of, after_return};
ghost use Rattle.xs_base.specs.Task.{PrivateTask, IsPrivateTask};
ghost use Rattle.xs_frame.specs.Framed.{framed_file};

/// A return right after a delivery takes the whole frame and gives the file back of which it was made, but for a PKRU that the
/// machine has no component for. The task then goes on as if no signal had come: what stays are the frame in its memory, and the
/// place to go back to, which is its place. A call does nothing.
pub fn a_return_undoes_a_delivery()
    ensures file { (rows : List Row) (private : PrivateTask) → IsPrivateTask rows private → return_of (delivered private) ≡ Full (framed_file private.file) }
    ensures task { (rows : List Row) (private : PrivateTask) → IsPrivateTask rows private → after_return (delivered private) (return_of (delivered private)) ≡ record private { file = framed_file private.file; frame = frame_of private; handling = false; back = private.place } }
{}
