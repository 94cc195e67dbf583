//! Which sections can be reached from the roots.

ghost use Rattle.std.specs.Prelude.{◌≡◌, true, ◌↔◌, ℕ, IfOk, OnOk, length};
ghost use Rattle.ldmodel.specs.InputSections.{input_sections};
ghost use Rattle.ldmodel.specs.Live.{live};
ghost use Rattle.ldmodel.specs.Project.{Project};
ghost use Rattle.gather.specs.LiveMarks.{IsGraphOf, marked};
ghost use Rattle.gather.specs.Graphs.{IsLive, IsMarked, IsVisit, graph_of};

use crate::references::References;
use growth::{NoMemory, vec};
use ldmodel_laws::gathering::live_by_path;
use std::alloc::Global;

/// Marks a section and puts it on the stack, unless it is discarded or marked.
fn visit(
    live: &mut Vec<bool>,
    stack: &mut Vec<usize>,
    out: &[bool],
    next: usize,
) -> Result<(), NoMemory>
    requires { length live.old.items ≡ length out.now }
    ensures { OnOk result (IsVisit out.now next live.old.items stack.old.items live.new.items stack.new.items) }
{
    if next < out.len() && !(out[next] || live[next]) {
        live[next] = true;
        vec::push(stack, next)?;
    }
    Ok(())
}

/// Marks the sections that are reachable from a root without passing a discarded one. `targets` holds those of one
/// section at a time.
fn reach<R: References>(
    alloc: Global,
    out: &[bool],
    roots: &[usize],
    references: &R,
) -> Result<Vec<bool>, NoMemory>
    requires can { R.can_find references.now }
    requires count { R.count references.now ≡ length out.now }
    ensures long { IfOk result (λ live. length live.items ≡ length out.now) }
    ensures live { IfOk result (λ live. (s : ℕ)
        → IsMarked live.items s ↔ IsLive (graph_of out.now roots.now (R.refers references.now)) s) }
{
    let mut live = vec::from_elem(alloc, false, out.len())?;
    let mut stack: Vec<usize> = Vec::new(alloc);
    for root in roots {
        visit(&mut live, &mut stack, out, *root)?;
    }
    let mut targets = Vec::new(alloc);
    while let Some(section) = stack.pop() {
        references.find_targets(section, &mut targets)?;
        for target in &targets {
            visit(&mut live, &mut stack, out, *target)?;
        }
    }
    Ok(live)
}

/// The live sections under garbage collection, of sections that are numbered from 0 in object order. `out` says of each
/// whether it is discarded. Only the live sections are asked for what they refer to, each once, so that the time grows
/// with the number of sections and of the references of live ones, and nothing is recursive. An error says that memory
/// ran out.
pub fn mark<R: References>(
    alloc: Global,
    out: &[bool],
    roots: &[usize],
    references: &R,
) -> Result<Vec<bool>, NoMemory>
    requires can { R.can_find references.now }
    requires count { R.count references.now ≡ length out.now }
    ensures long { IfOk result (λ marks. length marks.items ≡ length out.now) }
    ensures reached { IfOk result (λ marks. (s : ℕ)
        → IsMarked marks.items s ↔ IsLive (graph_of out.now roots.now (R.refers references.now)) s) }
    ensures live { IfOk result (λ marks. (project : Project) → project.options.gc ≡ true
        → IsGraphOf project (graph_of out.now roots.now (R.refers references.now))
        → marked marks.items (input_sections project)
        ≡ live project) }
{
    // for the prover: brings in this law
    live_by_path();
    reach(alloc, out, roots, references)
}
