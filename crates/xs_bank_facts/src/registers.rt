//! Where registers stand.

use crate::page::Page;
use xs_layout::Layout;
use xs_regs::place_of;

/// Names of registers of the machine `amx`: those with a name of their own, and families at their first and last index. Then
/// names of no register.
const NAMES: &str = "\
fcw fsw ftw fop fip fdp mxcsr pkru tilecfg \
st0 st7 xmm0 xmm15 ymmh0 ymmh15 k0 k7 zmmh0 zmmh15 zmm16 zmm31 tmm0.0 tmm0.15 tmm7.0 tmm7.15 \
f xmm xmm16 xmm00 xmm01 xmm+1 Xmm0 ymm0 ymmh16 zmm15 zmm32 zmmh zmmh16 st8 k8 tmm0 tmm0. tmm0.16 tmm00.0 tmm0.00 tmm8.0 tmm10.0 \
tmm0-0 abcdefghijklmnopqrst";

/// Tells of each name the component, the offset in it and the length, or that it's no register's.
pub fn tell_registers(page: &mut Page) {
    let layout = Layout::amx();
    for name in NAMES.split(' ') {
        page.word(name);
        match place_of(name, &layout) {
            Some(place) => {
                page.number(u64::from(place.comp.0));
                page.number(u64::from(place.offset));
                page.number(u64::from(place.len));
            }
            None => page.word(" is no register"),
        }
        page.word("\n");
    }
}
