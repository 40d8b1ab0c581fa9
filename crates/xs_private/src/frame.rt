//! Signals of a private task: the delivery, which writes a frame, and the return, which reads one.

ghost use Rattle.std.specs.Prelude.{◌≡◌, ◌≤◌, List, length, if◌then◌else◌, MatchResult};
ghost use Rattle.xs_base.specs.declared.component.Row.{Row};
ghost use Rattle.xs_base.specs.Frame as frames;
ghost use Rattle.xs_base.specs.Frame.{Refused, delivered, return_of, after_return, frame_bytes};
ghost use Rattle.xs_base.specs.Layout.{default_size, full_size, most_bytes};
ghost use Rattle.xs_base.specs.Task.{IsPrivateTask, frame_length};
ghost use Rattle.xs_image.specs.Restored.{IsImage};
ghost use Rattle.xs_private.specs.Answer.{is_return_answer};
ghost use Rattle.xs_private.specs.Marks as marks;

use crate::file::{start_again, user_of};
use crate::image::take_image;
use crate::private::{FRAME, Private};
use xs_base::{Class, Comp, Features, HeaderError, clear};
use xs_image::{Image, Restored, put_words, read_frame, user_size};
use xs_layout::Layout;
use xs_regs::File;

impl Private {
    /// Delivers a signal: the task's registers become a frame, which takes up the whole memory of the frame, the handler begins at
    /// its first line with every register initial, and PKRU is that of a start (Linux 6.6, arch/x86/kernel/fpu/signal.c,
    /// copy_fpstate_to_sigframe; arch/x86/kernel/signal.c, handle_signal).
    pub fn deliver(&mut self)
        requires valid { (rows : List Row) × IsPrivateTask rows self.old }
        ensures { self.new ≡ delivered self.old }
    {
        write_frame(&self.file, self.large, &mut self.frame);
        start_again(&mut self.file);
        self.handling = true;
        self.back = self.place;
        self.place = 0;
    }

    /// What a return takes of the frame, or the first test that the frame fails.
    pub fn return_answer(&self) -> Result<Restored, HeaderError>
        requires valid { (rows : List Row) × IsPrivateTask rows self.now }
        ensures { MatchResult result (λ r. is_return_answer r (return_of self.now)) (λ e. return_of self.now ≡ Refused e) }
    {
        match self.read_image() {
            Ok(image) => Ok(image.restored),
            Err(error) => Err(error),
        }
    }

    /// Returns from the handler: the registers become those that the frame has, the whole of it or its legacy region alone, and the
    /// task goes on where it was before the signal (Linux 6.6, arch/x86/kernel/fpu/signal.c, fpu__restore_sig). Where the frame is
    /// refused the registers alone change: they become initial, and PKRU that of a start, which is this project's own.
    pub fn go_back(&mut self)
        requires valid { (rows : List Row) × IsPrivateTask rows self.old }
        ensures { self.new ≡ after_return self.old (return_of self.old) }
    {
        match self.read_image() {
            Ok(image) => {
                take_image(&mut self.file, &self.frame, &image.parts);
                self.handling = false;
                self.place = self.back;
            }
            Err(_) => self.lose_registers(),
        }
    }

    /// What the task's frame has, or the first test that it fails.
    fn read_image(&self) -> Result<Image, HeaderError>
        requires valid { (rows : List Row) × IsPrivateTask rows self.now }
        ensures { MatchResult result (λ image. IsImage self.now image) (λ e. return_of self.now ≡ Refused e) }
    {
        let layout = self.file.layout();
        let user = user_of(layout, self.large);
        let size = size_of(layout, self.large);
        read_frame(layout, &self.frame, user, size)
    }
}

/// Writes the frame of these registers: the standard bytes of what the task may use over zeros, and the words of a frame over them
/// (Linux 6.6, arch/x86/kernel/fpu/signal.c, save_xstate_epilog).
fn write_frame(file: &File, large: bool, frame: &mut [u8])
    requires { length frame.old ≡ frame_length }
    ensures len { length frame.new ≡ length frame.old }
    ensures frame { frame.new ≡ frame_bytes file.now (marks.user_of file.now.rows large) (if large then full_size file.now.rows else default_size file.now.rows) }
{
    let layout = file.layout();
    let user = user_of(layout, large);
    let size = size_of(layout, large);
    clear(frame, 0, FRAME);
    file.standard_into(user, frame);
    put_words(frame, user, size, frame_bits(file, user));
}

/// A frame's XSTATE_BV: the components in use within what the task may use, and x87 and SSE always (Linux 6.6,
/// arch/x86/kernel/fpu/signal.c, save_xstate_epilog).
fn frame_bits(file: &File, user: Features) -> Features
    ensures { result.0 ≡ frames.frame_bits file.now user.0 }
{
    // The rows pass every test of a table.
    let _ = file.layout();
    file.in_use_of(user)
        .with(Comp::SSE, true)
        .with(Comp::X87, true)
}

/// The bytes of the standard format with what a task may use, by whether it has room for TILEDATA.
fn size_of(layout: &Layout, large: bool) -> u32
    ensures size { result ≡ (if large then full_size layout.now else default_size layout.now) }
    ensures low { 576 ≤ result }
    ensures high { result ≤ most_bytes }
{
    if large {
        user_size(layout, Class::Large)
    } else {
        user_size(layout, Class::Small)
    }
}
