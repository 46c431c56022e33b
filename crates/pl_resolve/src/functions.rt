//! The functions of the language, and their numbers.

ghost use Rattle.std.specs.Prelude.{◌≡◌, ◌++◌, ◌+◌, ◌<◌, map, length, slice_get, is_some, IfOk, IfSome};
ghost use Rattle.std.specs.Option.{option_copied};
ghost use Rattle.pl_resolve.specs.Functions.{function_names, place_in, local_names, number_of, behind};

use pl_base::{NoMemory, Seq, Text};
use pl_syntax::Function;
use sqlite_items::Items;
use std::alloc::Global;
use std::marker::Model;

/// The names of all functions, in the order of their numbers.
const NAMES: [&[u8]; 100] = [
    // elementwise, sizes, making arrays, questions
    b"abs",
    b"sign",
    b"mod",
    b"rem",
    b"xor",
    b"min",
    b"max",
    b"sum",
    b"prod",
    b"idivide",
    b"bitand",
    b"bitor",
    b"bitxor",
    b"bitshift",
    b"numel",
    b"length",
    b"isempty",
    b"size",
    b"isequal",
    b"zeros",
    b"ones",
    b"true",
    b"false",
    b"eye",
    b"int64",
    b"logical",
    b"char",
    b"intmax",
    b"intmin",
    b"class",
    b"ischar",
    b"islogical",
    b"isnumeric",
    b"isscalar",
    b"isvector",
    b"strcmp",
    // picking, ordering, laying out
    b"find",
    b"reshape",
    b"repmat",
    b"sort",
    b"unique",
    b"any",
    b"all",
    b"cumsum",
    b"fliplr",
    b"flipud",
    b"nnz",
    // texts and calls by value
    b"disp",
    b"fprintf",
    b"sprintf",
    b"error",
    b"num2str",
    b"mat2str",
    b"feval",
    // futures, queues, the pool
    b"parfeval",
    b"fetchOutputs",
    b"fetchNext",
    b"wait",
    b"cancel",
    b"parallel.pool.DataQueue",
    b"parallel.pool.PollableDataQueue",
    b"send",
    b"afterEach",
    b"poll",
    b"parpool",
    b"gcp",
    b"delete",
    // the functions of blocks, in both spellings
    b"labindex",
    b"numlabs",
    b"labSend",
    b"labReceive",
    b"labSendReceive",
    b"labBarrier",
    b"labBroadcast",
    b"gplus",
    b"gcat",
    b"gop",
    b"spmdIndex",
    b"spmdSize",
    b"spmdSend",
    b"spmdReceive",
    b"spmdSendReceive",
    b"spmdBarrier",
    b"spmdBroadcast",
    b"spmdPlus",
    b"spmdCat",
    b"spmdReduce",
    // codistributed arrays
    b"codistributor1d",
    b"codistributor1d.unsetPartition",
    b"codistributor2dbc",
    b"codistributed",
    b"codistributed.build",
    b"codistributed.zeros",
    b"codistributed.ones",
    b"redistribute",
    b"gather",
    b"getLocalPart",
    b"globalIndices",
    b"getCodistributor",
    b"iscodistributed",
];

/// The first place of a name.
fn find(table: &[&[u8]], name: &[u8]) -> Option<usize>
    ensures place { result ≡ place_in (map (λ k. k.now) table.now) name.now }
    ensures within { IfSome result (λ place. place < length table.now) }
{
    let count = table.len();
    let (entry, rest) = table.split_first()?;
    if *entry == name {
        return Some(0);
    }
    let place = find(rest, name)?;
    let next = place + 1;
    prove!(next < count);
    Some(next)
}

/// The place of a name among the functions of the language.
#[tactic(auto, unfolding(crate::specs::Functions::function_names))]
fn in_table(name: &[u8]) -> Option<usize>
    ensures place { result ≡ place_in function_names name.now }
    ensures within { IfSome result (λ place. place < 100) }
{
    find(&NAMES, name)
}

/// Whether a name is that of a function of the language.
pub fn is_function_name(name: &[u8]) -> bool
    ensures { result ≡ is_some (place_in function_names name.now) }
{
    in_table(name).is_some()
}

/// The place of a name in a table, or else of a text behind it.
fn place_in_both(table: &[&[u8]], texts: &[Text], name: &Text) -> Option<usize>
    ensures place { result ≡ behind (length table.now) (place_in (map (λ k. k.now) table.now) name.now) (place_in texts.now name.now) }
    ensures within { IfSome result (λ place. place < length table.now + length texts.now) }
{
    if let Some(place) = find(table, name.bytes()) {
        return Some(place);
    }
    let place = text_place(texts, name)?;
    Some(table.len() + place)
}

/// The place of a name among the functions of the language, and the extras behind them.
#[tactic(auto, unfolding(crate::specs::Functions::function_names))]
fn place_behind(extras: &[Text], name: &Text) -> Option<usize>
    ensures place { result ≡ behind (length function_names) (place_in function_names name.now) (place_in extras.now name.now) }
    ensures within { IfSome result (λ place. place < 100 + length extras.now) }
{
    place_in_both(&NAMES, extras, name)
}

/// The functions that a program can name: its own, those of the language behind them, and the extras of a table.
#[derive(Debug, Drop)]
pub struct Functions {
    locals: Vec<Text>,
    extras: Seq<Text>,
}

impl Model for Functions {
    ghost use Rattle.std.specs.Prelude.{◌<◌, length};
    ghost use Rattle.pl_resolve.specs.Functions.{Table};

    ghost Value = { Table };

    ghost view = { λ f. record { locals = f.locals.items; extras = f.extras } };

    ghost invariant = { λ f. (length f.locals.items < 2000000000) × (length f.extras < 2000000000) };
}

impl Functions {
    /// Those of a program with these local functions, beside these extras.
    pub fn of(
        alloc: Global,
        functions: &Items<Function>,
        extras: Seq<Text>,
    ) -> Result<Functions, NoMemory>
        ensures { IfOk result (λ f. f ≡ record { locals = local_names functions.now; extras = extras }) }
    {
        if functions.len() >= 2_000_000_000 || extras.items().len() >= 2_000_000_000 {
            return Err(NoMemory);
        }
        let mut locals = Vec::with_capacity(alloc, functions.len())?;
        for function in functions.as_slice() {
            locals.push(function.name.text.copy(alloc)?)?;
        }
        Ok(Functions { locals, extras })
    }

    /// The number of a function's name: for a local function its first place, for one of the language its place
    /// behind all local ones, and for an extra its place behind those. An earlier one hides a later one.
    pub fn number(&self, name: &Text) -> Option<u32>
        ensures { result ≡ number_of self.now name.now }
    {
        if let Some(place) = text_place(self.locals.as_slice(), name) {
            return Some(place as u32);
        }
        let place = place_behind(self.extras.items(), name)?;
        Some((self.locals.len() + place) as u32)
    }

    /// The extras.
    pub(crate) fn into_extras(self) -> Seq<Text>
        ensures { result ≡ self.extras }
    {
        let Functions { extras, .. } = self;
        extras
    }
}

/// The first place of a name among texts.
fn text_place(texts: &[Text], name: &Text) -> Option<usize>
    ensures place { result ≡ place_in texts.now name.now }
    ensures within { IfSome result (λ place. place < length texts.now) }
{
    let count = texts.len();
    let (first, rest) = texts.split_first()?;
    if *name == *first {
        return Some(0);
    }
    let place = text_place(rest, name)?;
    let next = place + 1;
    prove!(next < count);
    Some(next)
}

/// The first place of a name among a program's local functions.
fn place_among(functions: &[Function], name: &Text) -> Option<usize>
    ensures place { result ≡ place_in (local_names functions.now) name.now }
    ensures within { IfSome result (λ place. place < length functions.now) }
{
    let count = functions.len();
    let (first, rest) = functions.split_first()?;
    if *name == first.name.text {
        return Some(0);
    }
    let place = place_among(rest, name)?;
    let next = place + 1;
    prove!(next < count);
    Some(next)
}

/// The number of a function's name, where the program has these local functions and extras.
pub fn function_number(
    functions: &Items<Function>,
    extras: &Seq<Text>,
    name: &Text,
) -> Option<usize>
    ensures { result ≡ number_of (record { locals = local_names functions.now; extras = extras.now }) name.now }
{
    if let Some(place) = place_among(functions.as_slice(), name) {
        return Some(place);
    }
    let place = place_behind(extras.items(), name)?;
    Some(functions.len() + place)
}

/// The name at a place of a table, or else the text behind it.
fn name_in_both<'t>(table: &[&'static [u8]], texts: &'t Seq<Text>, place: usize) -> Option<&'t [u8]>
    ensures { option_copied result ≡ slice_get (map (λ k. k.now) table.now ++ texts.now) place }
{
    let count = table.len();
    if place < count {
        return Some(table[place]);
    }
    let text = texts.items().get(place - count)?;
    Some(text.bytes())
}

/// The name of a function of the language or of an extra, by its place among them.
#[tactic(auto, unfolding(crate::specs::Functions::function_names))]
pub fn name_behind(extras: &Seq<Text>, place: usize) -> Option<&[u8]>
    ensures { option_copied result ≡ slice_get (function_names ++ extras.now) place }
{
    name_in_both(&NAMES, extras, place)
}
