//! Images of trees and plain inputs at each step of the worked rows: where memory is ample there is
//! one, and each growth may be refused.
use super::rows::{FAULTY_ROWS, ROWS};
use super::{Case, holds};
use linked_list_allocator::LocalHeap;
use s6_script::parse_line;
use std::alloc::Global;
use std::process::Abort;
use std::test::Fail;
use tree_core::{Input, Tree};

// So many bytes the heap of a tree has.
const BYTES: usize = 65_536;

// What is copied: the image of a tree, or the plain data of an input.
#[derive(Clone, Copy)]
enum Copied<'a, 'b> {
    Tree(&'b Tree<&'a LocalHeap>),
    Input(&'b Input<&'a LocalHeap>),
}

// How often each copy was refused.
#[derive(Clone, Copy)]
struct Refused {
    images: u32,
    inputs: u32,
}

fn has_image(tree: &Tree<&LocalHeap>) -> bool {
    tree.image().is_ok()
}

fn has_plain<'a>(heap: &'a LocalHeap, input: &Input<&'a LocalHeap>) -> bool {
    input.plain(heap).is_ok()
}

// Whether there is a copy.
fn is_copied<'a>(heap: &'a LocalHeap, copied: &Copied<'a, '_>) -> bool {
    match copied {
        Copied::Tree(tree) => has_image(tree),
        Copied::Input(input) => has_plain(heap, input),
    }
}

// Whether there is a copy while so many bytes are left.
fn is_copied_in<'a>(heap: &'a LocalHeap, copied: &Copied<'a, '_>, left: usize) -> bool {
    let free = BYTES.saturating_sub(heap.used());
    let _filler = Vec::<u8, _>::with_capacity(heap, free.saturating_sub(left));
    is_copied(heap, copied)
}

// How often a copy is refused, with more and more memory, until there is one. With all memory there
// is one.
fn count_refused<'a>(rt: &impl Abort, heap: &'a LocalHeap, copied: &Copied<'a, '_>) -> u32 {
    let mut refused = 0u32;
    for step in 0..400usize {
        if !is_copied_in(heap, copied, 16 * step) {
            refused = refused.saturating_add(1);
        } else if refused > 0 {
            break;
        }
    }
    holds(rt, "a copy", is_copied(heap, copied));
    refused
}

// The input of the line is copied, where there is one.
fn copied_input<'a>(
    rt: &impl Abort,
    heap: &'a LocalHeap,
    patterns: Global,
    line: &str,
    refused: &mut Refused,
) -> Option<Input<&'a LocalHeap>> {
    let input = parse_line(heap, patterns, line.as_bytes()).ok()?;
    let inputs = count_refused(rt, heap, &Copied::Input(&input));
    refused.inputs = refused.inputs.saturating_add(inputs);
    Some(input)
}

fn is_taken<'a>(tree: &mut Tree<&'a LocalHeap>, input: Input<&'a LocalHeap>) -> bool {
    tree.apply(input).is_ok()
}

// The tree takes the input, and is copied.
fn take<'a>(
    rt: &impl Abort,
    heap: &'a LocalHeap,
    tree: &mut Tree<&'a LocalHeap>,
    input: Input<&'a LocalHeap>,
    refused: &mut Refused,
) {
    holds(rt, "a step", is_taken(tree, input));
    let images = count_refused(rt, heap, &Copied::Tree(tree));
    refused.images = refused.images.saturating_add(images);
}

// The lines of a script, up to one that is no input.
fn take_lines<'a>(
    rt: &impl Abort,
    heap: &'a LocalHeap,
    patterns: Global,
    tree: &mut Tree<&'a LocalHeap>,
    lines: &str,
    refused: &mut Refused,
) {
    for line in lines.split('\n') {
        let Some(input) = copied_input(rt, heap, patterns, line, refused) else {
            break;
        };
        take(rt, heap, tree, input, refused);
    }
}

// The same on a new tree.
fn take_all(
    rt: &impl Abort,
    heap: &LocalHeap,
    patterns: Global,
    lines: &str,
    refused: &mut Refused,
) -> Result<(), Fail> {
    let mut tree = Box::new(patterns, Tree::new(heap))?;
    take_lines(rt, heap, patterns, &mut tree, lines, refused);
    Ok(())
}

fn take_rows(
    rt: &impl Abort,
    alloc: Global,
    rows: &str,
    refused: &mut Refused,
) -> Result<(), Fail> {
    for row in rows.split("# ") {
        if let Some(lines) = Case::read(row).script.strip_prefix("s6-script 1\n") {
            let heap = LocalHeap::new(alloc, BYTES)?;
            take_all(rt, &heap, alloc, lines, refused)?;
        }
    }
    Ok(())
}

#[test]
fn each_growth_of_an_image_is_refused(rt: HostRuntime) -> Result<(), Fail> {
    let mut refused = Refused {
        images: 0,
        inputs: 0,
    };
    take_rows(&rt, rt.alloc(), ROWS, &mut refused)?;
    take_rows(&rt, rt.alloc(), FAULTY_ROWS, &mut refused)?;
    let Refused { images, inputs } = refused;
    assert!(&rt;
        images > 500 && inputs > 100,
        "{images} images and {inputs} inputs"
    );
    Ok(())
}
