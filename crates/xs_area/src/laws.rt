//! Laws of what the copies promise: the files that they speak of are there.

ghost use Rattle.std.specs.Prelude.{◌≡◌, ℕ, ◌<◌, ◌^◌, List};
ghost use Rattle.xs_base.specs.declared.component.Row.{Row};
ghost use Rattle.xs_base.specs.declared.header.Parts.{Parts};
ghost use Rattle.xs_base.specs.Area.{IsOfParts, IsCut};
ghost use Rattle.xs_base.specs.File.{File, IsFile};

/// Any parts are those of a file over any base file, whatever the bytes of the image are, so `compact_of` always speaks
/// of one: its base is the initial file, which `xs_base::the_initial_file_is_valid` tells of. A call does nothing.
pub fn parts_have_a_file()
    ensures { (rows : List Row) (bytes : List ℕ) (parts : Parts) (base : File) → IsFile base → base.rows ≡ rows → parts.mxcsr < 2 ^ 32 → (file : File) × IsFile file × IsOfParts rows bytes parts base file }
{}

/// Any file of a machine can be cut to what an area has room for, so `copy_area` always speaks of such a cut. A call does
/// nothing.
pub fn a_file_can_be_cut()
    ensures { (rows : List Row) (area : List ℕ) (file : File) → IsFile file → file.rows ≡ rows → (cut : File) × IsFile cut × IsCut rows area file cut }
{}
