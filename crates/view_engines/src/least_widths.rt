//! How wide a test's columns are at least in a chart.

ghost use Rattle.std.specs.Prelude.{◌≡◌, ◌<◌, ◌≤◌, ◌==◌, ◌*◌, ◌^◌, if◌then◌else◌, length, map, max, min, IfOk};
ghost use Rattle.std.specs.List.{count_by, range_with_len};
ghost use Rattle.std.specs.String.{string_bytes};
ghost use Rattle.hart.specs.Effects.{load_width, store_width};
ghost use Rattle.chart.specs.Sayings.{word_name as text_of_word};
ghost use Rattle.view_engines.specs.LeastWidths.{offset_cells, effect_cells, label_of_word, memory_column_cells, is_store_instruction};
ghost use Rattle.view_engines.specs.LeastWidths.{brief_of_word, kept_of_word, is_store_word, most};
ghost use Rattle.view_engines.specs.LeastWidths.{name_cells as cells_of_names, store_count};
ghost use Rattle.view_engines.specs.LeastWidths.{number_cells as cells_of_numbers, widths_with};
ghost use Rattle.view_engines.specs.LeastWidths.{all_code as words_of_harts, least_widths as widths_of_test};

use crate::about::word_text;
use chart::charts::LeastWidths;
use chart::naming::push_word;
use rv_decode::decode;
use rv_decode::instruction::{Instr, LoadOp, StoreOp};
use std::alloc::{AllocError, Global};
use step_machine::HartOpening;

fn load_offset(op: LoadOp) -> usize
    ensures value { result ≡ offset_cells (load_width op) }
    ensures most { result ≤ 2 }
{
    match op {
        LoadOp::Word => 0,
        _ => 2,
    }
}

fn store_offset(op: StoreOp) -> usize
    ensures value { result ≡ offset_cells (store_width op) }
    ensures most { result ≤ 2 }
{
    match op {
        StoreOp::Word => 0,
        _ => 2,
    }
}

/// The cells of what an instruction's row says after it, with a name of `name` cells and a row's number of `number`.
fn effect_cells(name: u8, number: u8, instr: &Instr) -> usize
    ensures value { result ≡ effect_cells name number instr.now }
    ensures most { result < 2 ^ 10 }
{
    let (name, number) = (usize::from(name), usize::from(number));
    match *instr {
        Instr::Load { op, .. } => name + load_offset(op) + " = 1 [mem ]".len() + number,
        Instr::Store { op, .. } => name + store_offset(op) + " := 1".len(),
        Instr::Amo { .. } => name + ": 0 -> 1 [mem ]".len() + number,
        Instr::Fence { .. } | Instr::FenceTso => "not full".len(),
        Instr::Ecall => "ended".len(),
        _ => 0,
    }
}

/// The cells of what it leaves in memory's column.
fn kept_cells(name: u8, number: u8, instr: &Instr) -> usize
    ensures { result ≡ memory_column_cells name number instr.now }
{
    let (name, number) = (usize::from(name), usize::from(number));
    match *instr {
        Instr::Store { op, .. } => name + store_offset(op) + " = 1 []".len() + number,
        Instr::Amo { .. } => name + " = 1".len(),
        _ => 0,
    }
}

fn label_of_word(alloc: Global, name: u8, number: u8, word: u32) -> Result<usize, AllocError>
    ensures { IfOk result (λ cells. cells ≡ label_of_word name number word) }
{
    match decode(word) {
        None => Ok(0),
        Some(instr) => {
            let text = word_text(alloc, Some(word))?;
            Ok(text.len() + 2 + effect_cells(name, number, &instr))
        }
    }
}

fn brief_of_word(name: u8, number: u8, word: u32) -> usize
    ensures { result ≡ brief_of_word name number word }
{
    match decode(word) {
        None => 0,
        Some(instr) => effect_cells(name, number, &instr),
    }
}

fn kept_of_word(name: u8, number: u8, word: u32) -> usize
    ensures { result ≡ kept_of_word name number word }
{
    match decode(word) {
        None => 0,
        Some(instr) => kept_cells(name, number, &instr),
    }
}

fn stores(word: u32) -> bool
    ensures { result ≡ is_store_word word }
{
    match decode(word) {
        None => false,
        Some(instr) => matches!(instr, Instr::Store { .. }),
    }
}

fn store_count(words: &[u32]) -> usize
    ensures value { result ≡ store_count words.now }
    ensures most { result ≤ length words.now }
{
    words.iter().filter(|word| stores(**word)).count()
}

fn capped(cells: usize) -> u8
    ensures { result ≡ min cells 255 }
{
    cells.min(255) as u8
}

fn cells_of_name(alloc: Global, names: &[String], place: usize) -> Result<usize, AllocError>
    requires { place < 65536 }
    ensures { IfOk result (λ cells. cells ≡ length (text_of_word (map string_bytes names.now) (4 * place))) }
{
    let mut name = String::new(alloc);
    push_word(&mut name, names, 4 * place as u32)?;
    Ok(name.len())
}

/// The cells of the longest name of a location.
#[tactic(auto, using(crate::proofs::WidthLaws::most_more))]
fn name_cells(alloc: Global, names: &[String]) -> Result<u8, AllocError>
    requires { length names.now ≤ 65536 }
    ensures { IfOk result (λ cells. cells ≡ cells_of_names (map string_bytes names.now)) }
{
    let mut longest: u8 = 0;
    for place in 0..names.len() {
        longest = longest.max(capped(cells_of_name(alloc, names, place)?));
    }
    Ok(longest)
}

/// The cells of the last row's number, where each instruction has a row and each store lands.
fn number_cells(alloc: Global, words: &[u32]) -> Result<u8, AllocError>
    ensures { IfOk result (λ cells. cells ≡ cells_of_numbers words.now) }
{
    let rows = words.len() + store_count(words);
    Ok(format!(in alloc; "{rows}")?.len() as u8)
}

/// The widths with room for one word more.
fn widened(
    alloc: Global,
    least: LeastWidths,
    name: u8,
    number: u8,
    word: u32,
) -> Result<LeastWidths, AllocError>
    ensures label { IfOk result (λ wider. wider.label ≡ max least.label (min (label_of_word name number word) 255)) }
    ensures brief { IfOk result (λ wider. wider.brief ≡ max least.brief (min (brief_of_word name number word) 255)) }
    ensures kept { IfOk result (λ wider. wider.kept ≡ max least.kept (min (kept_of_word name number word) 255)) }
    ensures lanes { IfOk result (λ wider. wider.lanes ≡ least.lanes) }
    ensures listed_lanes { IfOk result (λ wider. wider.listed_lanes ≡ least.listed_lanes) }
{
    let label = capped(label_of_word(alloc, name, number, word)?);
    Ok(LeastWidths {
        label: least.label.max(label),
        brief: least.brief.max(capped(brief_of_word(name, number, word))),
        kept: least.kept.max(capped(kept_of_word(name, number, word))),
        lanes: least.lanes,
        listed_lanes: least.listed_lanes,
    })
}

/// The widths that these words need.
fn widths_with(
    alloc: Global,
    name: u8,
    number: u8,
    lanes: u8,
    words: &[u32],
) -> Result<LeastWidths, AllocError>
    ensures { IfOk result (λ least. least ≡ widths_with name number lanes words.now) }
{
    let mut least = LeastWidths {
        label: 0,
        brief: 0,
        kept: 0,
        lanes,
        listed_lanes: capped(store_count(words)),
    };
    for word in words {
        least = widened(alloc, least, name, number, *word)?;
    }
    Ok(least)
}

/// The words of all harts.
fn words_of(alloc: Global, harts: &[HartOpening]) -> Result<Vec<u32>, AllocError>
    ensures { IfOk result (λ words. words.items ≡ words_of_harts harts.now) }
{
    let mut words = Vec::new(alloc);
    for hart in harts {
        words.extend_from_slice(&hart.code)?;
    }
    Ok(words)
}

fn hart_stores(hart: &HartOpening) -> usize
    ensures { result ≡ store_count hart.now.code }
{
    store_count(&hart.code)
}

/// A lane for each store of the hart that has the most.
fn most_stores(harts: &[HartOpening]) -> u8
    ensures { result ≡ min (most (λ hart. store_count hart.code) harts.now) 255 }
{
    let mut lanes: u8 = 0;
    for hart in harts {
        lanes = lanes.max(capped(hart_stores(hart)));
    }
    lanes
}

/// How wide the columns of a test are at least.
pub fn least_widths(
    alloc: Global,
    names: &[String],
    harts: &[HartOpening],
) -> Result<LeastWidths, AllocError>
    requires { length names.now ≤ 65536 }
    ensures { IfOk result (λ least. least ≡ widths_of_test (map string_bytes names.now) harts.now) }
{
    let words = words_of(alloc, harts)?;
    let name = name_cells(alloc, names)?;
    let number = number_cells(alloc, &words)?;
    widths_with(alloc, name, number, most_stores(harts), &words)
}
