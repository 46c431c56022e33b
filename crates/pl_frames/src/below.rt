//! What the frames below an operand say: how deep they nest, and what they are inside of.

ghost use Rattle.std.specs.Prelude.{◌≡◌, ◌≤◌, ◌+◌, reverse, length, nat_le, ◌&&◌};
ghost use Rattle.pl_frames.specs.Below as spec;
ghost use Rattle.pl_grammar.specs.Words as words;

use crate::operand::Op;
use crate::stack::{Bottom, Frame, Outgoing, Root, Site, Spot, Stack};
use crate::trees::plus;
use pl_grammar::Keyword;

/// How deep a program may nest.
const LIMIT: usize = 200;

/// Where statements stand: in a loop, in an `spmd`, where they may stand at all.
#[derive(Clone, Copy)]
pub struct Scene {
    pub looped: bool,
    pub spmd: bool,
    pub holds: bool,
}

/// What an operator puts over its last operand.
fn weight(op: &Op) -> usize
    ensures { result ≡ spec.weight op.now }
{
    match op {
        Op::Joined(_, _, _, signs) => plus(1, signs.elements().len()),
        _ => 1,
    }
}

fn frame_weight(frame: &Frame) -> usize
    ensures { result ≡ spec.frame_weight frame.now }
{
    match frame {
        Frame::Op(op) => weight(op),
        _ => 1,
    }
}

/// How many levels enclose the statements of a site.
fn site_nests(site: &Site) -> usize
    ensures { result ≡ spec.site_nests site.now }
{
    plus(0, site.levels.elements().len())
}

fn spot_nests(spot: &Spot) -> usize
    ensures { result ≡ spec.spot_nests spot.now }
{
    match spot {
        Spot::Here(site) => site_nests(site),
        Spot::Linked(_, _, site) => site_nests(site),
    }
}

fn bottom_nests(bottom: &Bottom) -> usize
    ensures { result ≡ spec.bottom_nests bottom.now }
{
    match bottom {
        Bottom::Goal(_, site) => plus(1, site_nests(site)),
        Bottom::Lead(_, spot) => plus(1, spot_nests(spot)),
        Bottom::Inner(_, spot) => plus(1, spot_nests(spot)),
        Bottom::Outputs(_, before, site) => plus(before.run, plus(2, site_nests(site))),
    }
}

/// How many levels enclose an operand.
fn nests(stack: &Stack) -> usize
    ensures { result ≡ spec.nests stack.now.frames stack.now.bottom }
{
    let mut deep = bottom_nests(&stack.bottom);
    for frame in stack.frames.elements() {
        deep = plus(frame_weight(frame), deep);
    }
    deep
}

fn base(frame: &Frame, deep: usize, below: usize) -> usize
    ensures { result ≡ spec.base frame.now deep below }
{
    match frame {
        Frame::Op(_) => below,
        _ => deep,
    }
}

/// How many levels enclose what the operators on top are a part of.
fn base_nests(stack: &Stack) -> usize
    ensures { result ≡ spec.base_nests stack.now.frames stack.now.bottom }
{
    let mut deep = bottom_nests(&stack.bottom);
    let mut below = deep;
    for frame in stack.frames.elements() {
        deep = plus(frame_weight(frame), deep);
        below = base(frame, deep, below);
    }
    below
}

/// Whether there is room for one level more below the operators on top.
#[tactic(auto, unfolding(crate::specs::Below::has_base_room))]
pub fn has_base_room(stack: &Stack) -> bool
    ensures { result ≡ spec.has_base_room stack.now }
{
    plus(1, base_nests(stack)) <= LIMIT
}

/// Whether there is room for so many levels more on a stack.
#[tactic(auto, unfolding(crate::specs::Below::has_room))]
pub fn has_room(more: usize, stack: &Stack) -> bool
    ensures { result ≡ spec.has_room more stack.now }
{
    plus(more, nests(stack)) <= LIMIT
}

/// Whether there is room for so many levels more in a site.
#[tactic(auto, unfolding(crate::specs::Below::site_room))]
pub fn site_room(more: usize, site: &Site) -> bool
    ensures { result ≡ spec.site_room more site.now }
{
    plus(more, site_nests(site)) <= LIMIT
}

/// Whether there is room for a level more behind outputs.
#[tactic(auto, unfolding(crate::specs::Below::outgoing_room))]
pub fn outgoing_room(before: &Outgoing, site: &Site) -> bool
    ensures { result ≡ spec.outgoing_room before.now site.now }
{
    plus(1, plus(before.run, plus(2, site_nests(site)))) <= LIMIT
}

#[tactic(auto, unfolding(crate::specs::Below::spot_room))]
pub fn spot_room(spot: &Spot) -> bool
    ensures { result ≡ spec.spot_room spot.now }
{
    plus(1, spot_nests(spot)) <= LIMIT
}

fn frame_row(frame: &Frame, below: bool) -> bool
    ensures { result ≡ spec.frame_row frame.now below }
{
    match frame {
        Frame::Op(_) => below,
        Frame::Row(_, _, _) => true,
        _ => false,
    }
}

/// Whether the innermost open bracket is a square one.
pub fn in_row(stack: &Stack) -> bool
    ensures { result ≡ spec.in_row stack.now.frames }
{
    let mut row = false;
    for frame in stack.frames.elements() {
        row = frame_row(frame, row);
    }
    row
}

fn frame_index(frame: &Frame, below: bool) -> bool
    ensures { result ≡ spec.frame_index frame.now below }
{
    match frame {
        Frame::Args(_, _, _, _) => true,
        Frame::Brace(_, _) => true,
        _ => below,
    }
}

/// Whether some open bracket is a list's parenthesis or a brace.
pub fn in_index(stack: &Stack) -> bool
    ensures { result ≡ spec.in_index stack.now.frames }
{
    let mut index = false;
    for frame in stack.frames.elements() {
        index = frame_index(frame, index);
    }
    index
}

/// What statements behind a part with this keyword stand in.
fn inside(word: Keyword, scene: Scene) -> Scene
    ensures { result ≡ spec.inside word scene }
{
    let Scene { looped, spmd, .. } = scene;
    match word {
        Keyword::For | Keyword::Parfor | Keyword::While => Scene {
            looped: true,
            spmd,
            holds: true,
        },
        Keyword::Spmd => Scene {
            looped: false,
            spmd: true,
            holds: true,
        },
        Keyword::Switch => Scene {
            looped,
            spmd,
            holds: false,
        },
        _ => Scene {
            looped,
            spmd,
            holds: true,
        },
    }
}

fn scene_of(site: &Site) -> Scene
    ensures { result ≡ spec.scene site.now.levels }
{
    let mut scene = Scene {
        looped: false,
        spmd: false,
        holds: true,
    };
    for level in site.levels.elements() {
        scene = inside(level.opened.word, scene);
    }
    scene
}

/// `break` and `continue` in a loop; no `return`, `spmd` or `parfor` in an `spmd`.
fn may(scene: Scene, word: Keyword) -> bool
    ensures { result ≡ spec.may scene word }
{
    match word {
        Keyword::Break | Keyword::Continue => scene.looped,
        Keyword::Return | Keyword::Spmd | Keyword::Parfor => !scene.spmd,
        _ => true,
    }
}

/// Whether statements may stand here.
#[tactic(auto, unfolding(crate::specs::Below::holds))]
pub fn holds(site: &Site) -> bool
    ensures { result ≡ spec.holds site.now }
{
    scene_of(site).holds
}

/// Whether a statement with this keyword may stand here.
#[tactic(auto, unfolding(crate::specs::Below::allows))]
pub fn allows(site: &Site, word: Keyword) -> bool
    ensures { result ≡ spec.allows site.now word }
{
    let scene = scene_of(site);
    scene.holds && may(scene, word)
}

/// Whether an `end` has to come, where these statements stand.
pub fn site_open(site: &Site) -> bool
    ensures { result ≡ spec.site_open site.now }
{
    match &site.root {
        Root::Script => !site.levels.elements().is_empty(),
        Root::Function(_, _) => true,
    }
}

pub fn stack_open(stack: &Stack) -> bool
    ensures { result ≡ spec.stack_open stack.now }
{
    match &stack.bottom {
        Bottom::Goal(_, site) => site_open(site),
        Bottom::Outputs(_, _, site) => site_open(site),
        _ => true,
    }
}
