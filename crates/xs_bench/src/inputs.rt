//! What the calls read and write: a file with every component in use, its image in the standard format, and areas of
//! the compacted format.

ghost use Rattle.std.specs.Prelude.{◌≡◌, IfOk};

use std::alloc::{AllocError, Global};
use xs_area::{Area, Class, class_features, class_size, compacted};
use xs_base::{Features, INITIAL_MXCSR, Lane, clear, put, put_number};
use xs_layout::Layout;
use xs_regs::{File, place_of};

/// A register of each component.
pub const REGISTERS: &str = "fip xmm1 ymmh1 k1 zmmh1 zmm17 pkru tilecfg tmm0.1";

/// The bytes that are written into each register.
pub const ONES: [u8; 64] = [1; 64];

/// What the calls read and write.
#[derive(Drop)]
pub struct Inputs {
    /// The machine's table.
    pub layout: Layout,
    /// A file with every component in use.
    pub file: File,
    /// Its image in the standard format.
    pub image: Vec<u8>,
    /// As many bytes.
    pub out: Vec<u8>,
    /// An area of the compacted format with state of every component but PKRU.
    pub area: Area,
    /// Another.
    pub other: Area,
}

impl Inputs {
    /// The inputs of the machine `amx`.
    pub fn new(alloc: Global) -> Result<Inputs, AllocError>
        ensures area { IfOk result (λ inputs. inputs.area.id ≡ 1) }
        ensures other { IfOk result (λ inputs. inputs.other.id ≡ 2) }
    {
        let layout = Layout::amx();
        let file = full_file(alloc, &layout)?;
        let image = full_image(alloc, &file)?;
        let out = vec![in alloc; 0u8; layout.full_size() as usize]?;
        let area = full_area(alloc, 1, &layout)?;
        let other = full_area(alloc, 2, &layout)?;
        Ok(Inputs {
            layout,
            file,
            image,
            out,
            area,
            other,
        })
    }
}

/// The file of a machine with every component in use.
fn full_file(alloc: Global, layout: &Layout) -> Result<File, AllocError> {
    let mut file = File::initial(alloc, layout)?;
    fill(&mut file);
    Ok(file)
}

/// Writes a register of each component.
fn fill(file: &mut File) {
    for name in REGISTERS.split(' ') {
        if let Some(place) = place_of(name, file.layout()) {
            file.write(place, &Lane::from_slice(&ONES[..place.len as usize]));
        }
    }
}

/// The file's image in the standard format: every component of the machine is in its XSTATE_BV.
fn full_image(alloc: Global, file: &File) -> Result<Vec<u8>, AllocError> {
    let layout = file.layout();
    let features = layout.features();
    let mut image = vec![in alloc; 0u8; layout.full_size() as usize]?;
    file.standard_into(features, &mut image);
    put_number(&mut image, 512, features.0);
    Ok(image)
}

/// An area of the compacted format with every component but PKRU, whose registers have the byte 1 throughout. It has state
/// of each of its components.
fn full_area(alloc: Global, id: u64, layout: &Layout) -> Result<Area, AllocError>
    ensures { IfOk result (λ area. area.id ≡ id) }
{
    let names = class_features(layout, Class::Large);
    let mut bytes = vec![in alloc; 1u8; class_size(layout, Class::Large) as usize]?;
    put(&mut bytes, 24, &INITIAL_MXCSR.to_le_bytes());
    clear(&mut bytes, 512, 64);
    put_number(&mut bytes, 512, names.0);
    put_number(&mut bytes, 520, compacted(names).0);
    Ok(Area { id, bytes })
}
