//! Links of small projects, whole.

ghost use Rattle.std.specs.Prelude.{◌≡◌, [], ◌∷◌, ◌++◌, codes, drop, length, take};
ghost use Rattle.elfobj.specs.declared.symbol.Binding.TheVariants.{Global};
ghost use Rattle.ldmodel.specs.Link.{link};
ghost use Rattle.ldmodel.specs.Options.{default_options};
ghost use Rattle.ldmodel.specs.Project.{empty_project};
ghost use Rattle.ldmodel_laws.specs.ExampleProjects.{both_but_b, call_and_return, commons_in_bss, of_symbols, of_two};
ghost use Rattle.ldmodel_laws.specs.Examples.{defined};

/// The empty project has an image without segments. A live section that no statement takes, and a name with two strong
/// definitions, are faults. A call in `a.o` reaches `f` in `b.o`, 8 bytes further, after a gap: the call's field is 3,
/// since it counts from its own end. A common block takes room in `.bss`, and the symbol table of the image has it as
/// global data of 16 bytes in section 1.
pub fn link_by_example()
    ensures empty_status { (link (empty_project default_options)).status ≡ 0 }
    ensures empty_map { (link (empty_project default_options)).map ≡ codes "entry 0000000000000000" ++ 10 ∷ [] }
    ensures empty_length { length (link (empty_project default_options)).image ≡ 376 }
    ensures orphan_status { (link (of_two (both_but_b ∷ []))).status ≡ 1 }
    ensures orphan_faults { (link (of_two (both_but_b ∷ []))).faults ≡ codes "F3 b.o .a" ++ 10 ∷ [] }
    ensures duplicate_faults { (link (of_symbols (defined Global 1 (codes "f")) (defined Global 1 (codes "f")))).faults
        ≡ codes "F1 f b.o a.o" ++ 10 ∷ [] }
    ensures call_status { (link call_and_return).status ≡ 0 }
    ensures call_map { (link call_and_return).map ≡ codes "entry 0000000000000000" ++ 10
        ∷ codes "section .text 00000000004010c8 00000000004010c8 0000000000000009 r-x" ++ 10
        ∷ codes "piece 00000000004010c8 0000000000000005 a.o .text" ++ 10
        ∷ codes "piece 00000000004010d0 0000000000000001 b.o .text" ++ 10
        ∷ codes "symbol 00000000004010d0 f b.o" ++ 10 ∷ [] }
    ensures call_bytes { take 9 (drop 200 (link call_and_return).image)
        ≡ 0xE8 ∷ 3 ∷ 0 ∷ 0 ∷ 0 ∷ 0 ∷ 0 ∷ 0 ∷ 0xC3 ∷ [] }
    ensures call_length { length (link call_and_return).image ≡ 624 }
    ensures common_map { (link commons_in_bss).map ≡ codes "entry 0000000000000000" ++ 10
        ∷ codes "section .bss 0000000000404008 0000000000404008 0000000000000010 rw-" ++ 10
        ∷ codes "piece 0000000000404008 0000000000000010 a.o COMMON" ++ 10
        ∷ codes "symbol 0000000000404008 buf a.o" ++ 10 ∷ [] }
    ensures common_length { length (link commons_in_bss).image ≡ 528 }
    ensures common_symbol { take 24 (drop 144 (link commons_in_bss).image)
        ≡ 1 ∷ 0 ∷ 0 ∷ 0 ∷ 0x11 ∷ 0 ∷ 1 ∷ 0 ∷ 8 ∷ 0x40 ∷ 0x40 ∷ 0 ∷ 0 ∷ 0 ∷ 0 ∷ 0
        ∷ 16 ∷ 0 ∷ 0 ∷ 0 ∷ 0 ∷ 0 ∷ 0 ∷ 0 ∷ [] }
{}
