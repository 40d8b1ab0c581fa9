//! The words of a frame.

ghost use Rattle.std.specs.Prelude.{◌≡◌, ◌+◌, ◌≤◌, length};
ghost use Rattle.xs_base.specs.Bytes.{splice};
ghost use Rattle.xs_base.specs.Frame as frames;
ghost use Rattle.xs_base.specs.Task.{frame_length};

use xs_base::{Features, put, put_number};

/// FP_XSTATE_MAGIC1 (Linux 6.6, arch/x86/include/uapi/asm/sigcontext.h).
pub const MAGIC1: u32 = 0x4650_5853;

/// FP_XSTATE_MAGIC2.
pub const MAGIC2: u32 = 0x4650_5845;

/// Writes a number of four bytes from byte `at` on.
#[tactic(auto, unfolding(xs_base::specs::Frame::word))]
fn put_word(out: &mut [u8], at: usize, value: u32)
    requires { at + 4 ≤ length out.old }
    ensures written { out.new ≡ splice at (frames.word value) out.old }
    ensures len { length out.new ≡ length out.old }
{
    put(out, at, &value.to_le_bytes());
}

/// Writes a number of eight bytes from byte `at` on.
#[tactic(auto, unfolding(xs_base::specs::Frame::long))]
fn put_long(out: &mut [u8], at: usize, value: u64)
    requires { at + 8 ≤ length out.old }
    ensures written { out.new ≡ splice at (frames.long value) out.old }
    ensures len { length out.new ≡ length out.old }
{
    put_number(out, at, value);
}

/// Writes the words of a frame of `size` standard bytes: those of `struct _fpx_sw_bytes` from byte 464 on, XSTATE_BV, and the second
/// magic word behind the standard bytes (Linux 6.6, arch/x86/kernel/fpu/signal.c, save_xstate_epilog).
#[tactic(auto, unfolding(xs_base::specs::Frame::with_words))]
pub fn put_words(frame: &mut [u8], user: Features, size: u32, bits: Features)
    requires len { length frame.old ≡ frame_length }
    requires low { 576 ≤ size }
    requires high { size ≤ 16384 }
    ensures written { frame.new ≡ frames.with_words user.0 size bits.0 frame.old }
    ensures len { length frame.new ≡ length frame.old }
{
    put_word(frame, 464, MAGIC1);
    put_word(frame, 468, size + 4);
    put_long(frame, 472, user.0);
    put_word(frame, 480, size);
    put_long(frame, 512, bits.0);
    put_word(frame, size as usize, MAGIC2);
}

/// The four bytes from byte `at` on, as a number.
#[tactic(auto, unfolding(xs_base::specs::Frame::word_at))]
pub fn word_at(frame: &[u8], at: usize) -> u32
    requires { at + 4 ≤ length frame.now }
    ensures { result ≡ frames.word_at at frame.now }
{
    let mut word = [0; 4];
    word.copy_from_slice(&frame[at..at + 4]);
    u32::from_le_bytes(word)
}

/// The components that a frame tells of, bytes 472 to 479.
#[tactic(auto, unfolding(xs_base::specs::Frame::xfeatures))]
pub fn xfeatures(frame: &[u8]) -> u64
    requires { 480 ≤ length frame.now }
    ensures { result ≡ frames.xfeatures frame.now }
{
    let mut long = [0; 8];
    long.copy_from_slice(&frame[472..480]);
    u64::from_le_bytes(long)
}
