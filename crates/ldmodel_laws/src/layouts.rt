//! Small scripts, and what the layout says of them.

ghost use Rattle.std.specs.Prelude.{◌≡◌, [], ◌∷◌, Err, codes, drop, take};
ghost use Rattle.ldscript.specs.terms.Expressions.{Number};
ghost use Rattle.ldscript.specs.statements.declared.directive.DotCommand.TheVariants.{Add, Set};
ghost use Rattle.ldmodel.specs.Fault.{AddressesOverlap, LoadAddressesOverlap, MovedBack, PastAddressSpace, RegionFull};
ghost use Rattle.ldmodel.specs.Link.{link};
ghost use Rattle.ldmodel.specs.Placement.{placement};
ghost use Rattle.ldmodel_laws.specs.Examples.{sections};
ghost use Rattle.ldmodel_laws.specs.LayoutExamples.{at, bytes, dot, dot_of, eight_bytes, filled, numbers_of, on};
ghost use Rattle.ldmodel_laws.specs.LayoutExamples.{one_body};
ghost use Rattle.ldmodel_laws.specs.LayoutExamples.{overlaps_of, rom_and_ram, starts_of, text_data_bss, two_at};
ghost use Rattle.ldmodel_laws.specs.LayoutExamples.{two_rows};

/// Layout: a region's next free address moves with the sections in it, that of `AT>region` with load ends; a region
/// without room is a fault; `.` counts from the start of an output section, does not go back there, and outside wraps
/// modulo 2^64; alignments 0 and 1 are the same; output sections that share an address are a fault, and may come in any
/// order; a gap is filled.
pub fn layout_by_example()
    ensures regions { numbers_of (placement rom_and_ram text_data_bss [])
        ≡ (0x8000 ∷ 6 ∷ 0x8000 ∷ 6 ∷ []) ∷ (0x20000 ∷ 8 ∷ 0x8008 ∷ 8 ∷ []) ∷ (0x20008 ∷ 16 ∷ 0x8010 ∷ 0 ∷ []) ∷ [] }
    ensures has_room { numbers_of (placement eight_bytes ((bytes 0 8 1 ∷ []) ∷ []) [])
        ≡ (0x1000 ∷ 8 ∷ 0x1000 ∷ 8 ∷ []) ∷ [] }
    ensures full { placement eight_bytes ((bytes 0 9 1 ∷ []) ∷ []) [] ≡ Err (RegionFull (codes ".d") (codes "r")) }
    ensures from_start { numbers_of (placement (one_body 0x2000 (dot (Set (Number 12)) ∷ []))
        ((bytes 0 8 1 ∷ []) ∷ []) [])
        ≡ (0x2000 ∷ 12 ∷ 0x2000 ∷ 12 ∷ []) ∷ [] }
    ensures moved_back { placement (one_body 0x2000 (dot (Set (Number 4)) ∷ [])) ((bytes 0 8 1 ∷ []) ∷ []) []
        ≡ Err (MovedBack 1) }
    ensures past { placement (one_body 0x2000 (dot (Add (Number 0xFFFFFFFFFFFFFFFF)) ∷ []))
        ((bytes 0 8 1 ∷ []) ∷ []) [] ≡ Err (PastAddressSpace 1) }
    ensures wrapped { dot_of (placement (sections (at 0xFFFFFFFFFFFFFFFF ∷ on 3 ∷ []) ∷ []) [] []) ≡ 2 ∷ [] }
    ensures aligned { starts_of (placement (one_body 0x2000 [])
        ((bytes 0 3 0 ∷ bytes 0 2 1 ∷ bytes 0 1 4 ∷ []) ∷ []) []) ≡ (0x2000 ∷ 0x2003 ∷ 0x2008 ∷ []) ∷ [] }
    ensures backwards { numbers_of (placement (two_at 0x1000) two_rows [])
        ≡ (0x2000 ∷ 8 ∷ 0x2000 ∷ 8 ∷ []) ∷ (0x1000 ∷ 8 ∷ 0x1000 ∷ 8 ∷ []) ∷ [] }
    ensures overlapping { overlaps_of (placement (two_at 0x2004) two_rows [])
        ≡ AddressesOverlap (codes ".e") (codes ".d") ∷ LoadAddressesOverlap (codes ".e") (codes ".d") ∷ [] }
    ensures filled { take 8 (drop 120 (link filled).image) ≡ 1 ∷ 2 ∷ 3 ∷ 0x90 ∷ 0x91 ∷ 0x90 ∷ 0x91 ∷ 0x90 ∷ [] }
{}
