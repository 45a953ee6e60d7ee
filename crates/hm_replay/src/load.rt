//! From what is asked for to the orders of each file.
ghost use Rattle.std.specs.Prelude.{◌≡◌, ℕ, ◌≤◌, ◌<◌, List, [], ◌∷◌, map, length, None, Some, Err, IfOk, IfErr, IfSome};
ghost use Rattle.std.specs.Option.{option_map};
ghost use Rattle.hm_edge.specs.Faults.{Rose};
ghost use Rattle.hm_generator.specs.Generated.{orders_made};
ghost use Rattle.hm_words.specs.Asked.{wish_of};
ghost use Rattle.hm_words.specs.Reading.{IsWithin};
ghost use Rattle.hm_replay.specs.Wishes.{names_of};
ghost use Rattle.hm_replay.specs.Loading.{AreHeld, AreOfFiles, IsCause, IsTaskOf, most_files};
ghost use Rattle.hm_replay.specs.Reading.{AreOrders, AreTexts, IsOfFirst, IsOrders, IsRefusedBy, IsText, IsUnread};
ghost use Rattle.hm_replay.specs.Refusals.{IsEarly, IsOfWords, grown_by, names_failed, unread_of};

use crate::refusal::Refused;
use crate::task::{Form, Task};
use hm_book::Limits;
use hm_edge::Shelf;
use hm_generator::generate_orders;
use hm_orders::{Order, read_orders};
use hm_words::{Asked, Settings};
use std::alloc::Global;

/// How many files may be replayed together.
const MOST_FILES: u64 = 8;

/// How many bytes a file may have: 64 MiB, some three times what its rows can fill.
const MOST_BYTES: u64 = 67_108_864;

/// The orders of each named file, or those that are made from a number.
pub(crate) fn load<S: Shelf>(
    alloc: Global,
    asked: &Asked<'_>,
    shelf: &mut S,
) -> Result<Task, Refused>
    requires within { IsWithin (wish_of asked.now) }
    ensures task { IfOk result (λ task. IsTaskOf (S.told shelf.old) task (wish_of asked.now)) }
    ensures rows { IfOk result (λ task.
        AreOfFiles (map (λ orders. orders.items) task.files.items)) }

    ensures files { most_files < length (names_of (wish_of asked.now))
        → result ≡ Err (Refused.Files (length (names_of (wish_of asked.now)))) }
    ensures cause { IfErr result (IsCause (S.told shelf.old) (names_of (wish_of asked.now))) }
    ensures early { IfErr result IsEarly }
    ensures untouched { IfErr result (λ refused. IsOfWords refused → shelf.new ≡ shelf.old) }
    ensures read { IfSome (unread_of result)
        (λ _. Rose (S.faults shelf.old) (S.faults shelf.new)) }
    ensures unread { unread_of result ≡ None → S.faults shelf.new ≡ S.faults shelf.old }

    ensures faults { S.faults shelf.old ≤ S.faults shelf.new }
    ensures failures { S.failed shelf.new ≡ names_failed (unread_of result)
        (Some (names_of (wish_of asked.now))) (S.failed shelf.old) }
    ensures same { (name : List ℕ) → S.told shelf.new name ≡ S.told shelf.old name }
{
    match asked {
        Asked::Replay { settings, files } => Ok(Task {
            settings: *settings,
            files: load_files(alloc, files.as_slice(), shelf)?,
            form: Form::Report,
        }),
        Asked::Generate {
            versions,
            number,
            count,
        } => Ok(Task {
            settings: Settings {
                versions: *versions,
                limits: Limits::NONE,
            },
            files: make_files(alloc, *number, *count)?,
            form: Form::Summary {
                number: *number,
                count: *count,
            },
        }),
    }
}

/// The one list of the orders that are made from a number.
fn make_files(alloc: Global, number: u64, count: u64) -> Result<Vec<Vec<Order>>, Refused>
    requires { count ≤ 1000000 }
    ensures made { IfOk result (λ files.
        map (λ orders. orders.items) files.items ≡ orders_made number count ∷ []) }
    ensures rows { IfOk result (λ files. AreOfFiles (map (λ orders. orders.items) files.items)) }
    ensures memory { IfErr result (λ refused. refused ≡ Refused.Memory) }
{
    let orders = generate_orders(alloc, number, count)?;
    let mut files = Vec::new(alloc);
    files.push(orders)?;
    Ok(files)
}

/// The orders of each of these files. All files are read before any row is.
fn load_files<S: Shelf>(
    alloc: Global,
    names: &[&str],
    shelf: &mut S,
) -> Result<Vec<Vec<Order>>, Refused>
    requires { 1 ≤ length names.now }
    ensures orders { IfOk result (λ files. AreHeld (S.told shelf.old)
        (map (λ name. name.now) names.now) (map (λ orders. orders.items) files.items)) }
    ensures rows { IfOk result (λ files. AreOfFiles (map (λ orders. orders.items) files.items)) }

    ensures files { most_files < length names.now
        → result ≡ Err (Refused.Files (length names.now)) }
    ensures cause { IfErr result (IsCause (S.told shelf.old) (map (λ name. name.now) names.now)) }
    ensures untouched { IfErr result (λ refused. IsOfWords refused → shelf.new ≡ shelf.old) }
    ensures read { IfSome (unread_of result)
        (λ _. Rose (S.faults shelf.old) (S.faults shelf.new)) }
    ensures unread { unread_of result ≡ None → S.faults shelf.new ≡ S.faults shelf.old }

    ensures faults { S.faults shelf.old ≤ S.faults shelf.new }
    ensures failures { S.failed shelf.new ≡ names_failed (unread_of result)
        (Some (map (λ name. name.now) names.now)) (S.failed shelf.old) }
    ensures same { (name : List ℕ) → S.told shelf.new name ≡ S.told shelf.old name }
{
    let count = names.len() as u64;
    if count > MOST_FILES {
        return Err(Refused::Files(count));
    }
    let texts = read_files(alloc, names, shelf)?;
    orders_of_texts(alloc, texts.as_slice())
}

/// The bytes of each file, in order.
fn read_files<S: Shelf>(
    alloc: Global,
    names: &[&str],
    shelf: &mut S,
) -> Result<Vec<Vec<u8>>, Refused>
    requires { length names.now ≤ most_files }
    ensures texts { IfOk result (λ files. AreTexts (S.told shelf.old)
        (map (λ name. name.now) names.now) (map (λ text. text.items) files.items)) }
    ensures count { IfOk result (λ files. length files.items ≡ length names.now) }
    ensures cause { IfErr result (IsCause (S.told shelf.old) (map (λ name. name.now) names.now)) }
    ensures read { IfSome (unread_of result)
        (λ _. Rose (S.faults shelf.old) (S.faults shelf.new)) }
    ensures unread { unread_of result ≡ None → S.faults shelf.new ≡ S.faults shelf.old }
    ensures failures { S.failed shelf.new ≡ names_failed (unread_of result)
        (Some (map (λ name. name.now) names.now)) (S.failed shelf.old) }
    ensures faults { S.faults shelf.old ≤ S.faults shelf.new }
    ensures same { (name : List ℕ) → S.told shelf.new name ≡ S.told shelf.old name }
{
    let mut texts = Vec::new(alloc);
    for name in names {
        let file = texts.len() as u32 + 1;
        texts.push(read_file(alloc, file, name, shelf)?)?;
    }
    Ok(texts)
}

/// The bytes of the file with this number and this name.
fn read_file<S: Shelf>(
    alloc: Global,
    file: u32,
    name: &str,
    shelf: &mut S,
) -> Result<Vec<u8>, Refused>
    ensures text { IfOk result (λ text. IsText (S.told shelf.old name.now) text.items) }
    ensures refused { IfErr result (IsUnread file (S.told shelf.old name.now)) }
    ensures read { IfSome (unread_of result)
        (λ _. Rose (S.faults shelf.old) (S.faults shelf.new)) }
    ensures unread { unread_of result ≡ None → S.faults shelf.new ≡ S.faults shelf.old }
    ensures failures { S.failed shelf.new
        ≡ grown_by (option_map (λ _. name.now) (unread_of result)) (S.failed shelf.old) }
    ensures faults { S.faults shelf.old ≤ S.faults shelf.new }
    ensures same { (other : List ℕ) → S.told shelf.new other ≡ S.told shelf.old other }
{
    let mut bytes = Vec::new(alloc);
    shelf
        .read(name, &mut bytes, MOST_BYTES)
        .map_err(|refusal| Refused::of_shelf(file, refusal))?;
    Ok(bytes)
}

/// The orders that each text holds, in order.
fn orders_of_texts(alloc: Global, texts: &[Vec<u8>]) -> Result<Vec<Vec<Order>>, Refused>
    requires { length texts.now ≤ most_files }
    ensures count { IfOk result (λ files. length files.items ≡ length texts.now) }
    ensures orders { IfOk result (λ files. AreOrders (map (λ text. text.items) texts.now)
        (map (λ orders. orders.items) files.items)) }
    ensures refused { IfErr result (IsOfFirst (map (λ text. text.items) texts.now)) }
{
    let mut files = Vec::new(alloc);
    for text in texts {
        let file = files.len() as u32 + 1;
        files.push(orders_of_text(alloc, file, text.as_slice())?)?;
    }
    Ok(files)
}

/// The orders that the text of the file with this number holds.
fn orders_of_text(alloc: Global, file: u32, text: &[u8]) -> Result<Vec<Order>, Refused>
    ensures orders { IfOk result (λ orders. IsOrders file text.now orders.items) }
    ensures refused { IfErr result (IsRefusedBy file text.now) }
{
    read_orders(alloc, file, text).map_err(|refusal| Refused::of_text(file, refusal))
}
