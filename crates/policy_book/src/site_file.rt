// The words of the requests of a site file.
ghost use Rattle.std.specs.Prelude.{◌≡◌, [], ◌∷◌, ◌++◌, map, codes, Some, None, IfOk, OnOk, IsErrOf, IsUtf8, option_map, option_and_then};
ghost use Rattle.toml.specs.Data.{get_member};
ghost use Rattle.toml.specs.Parse.{parse_document};
ghost use Rattle.toml.specs.View.{view, items_view, table_view};
ghost use Rattle.policy_book.specs.SiteFile.{table_with, tables_at, of_items, one, request_of, zone_line, zone_lines, unit_line, client_line, clients_of, selections_of, schedules_of, policy_name, policy_line, parts_of, policy_lines, all_lines, file_lines};
ghost use Rattle.policy_book.specs.Loading.{Reads, Adds};
ghost use Rattle.policy_book.specs.declared.fault.LoadFault.TheVariants as load;

use crate::request_lines::{
    Line, add_request, form_of, has_keys, items_at, on_policy, text_of, value_at, word_of,
};
use crate::{LoadFault, NoMemory};
use site_types::{ListOf, Text, copy_all, written_path};
use std::alloc::Global;
use toml::{Table, Value};

const FILE_KEYS: [&[u8]; 4] = [b"zone", b"unit", b"client", b"policy"];

const ZONE_KEYS: [&[u8]; 2] = [b"rule", b"offset"];

const UNIT_KEYS: [&[u8]; 7] = [
    b"name",
    b"capacity",
    b"segment",
    b"fragment",
    b"slots",
    b"high",
    b"low",
];

const CLIENT_KEYS: [&[u8]; 1] = [b"name"];

const POLICY_KEYS: [&[u8]; 3] = [b"policy", b"type", b"lifecycle"];

const POLICY_PARTS: [&[u8]; 3] = [b"clients", b"selections", b"schedule"];

const SCHEDULE_KEYS: [&[u8]; 5] = [b"schedule", b"kind", b"frequency", b"calendar", b"windows"];

// The requests of a site file, each as its words: the zone, the units, the clients, and each policy, followed by its clients,
// its selections and its schedules. Where the bytes are no site file it answers `NotASite`.
pub fn site_lines(alloc: Global, bytes: &[u8]) -> Result<Vec<ListOf<Text>>, LoadFault>
    ensures lines { IfOk result (λ v. IsUtf8 bytes.now × (option_and_then file_lines (parse_document bytes.now) ≡ Some v.items)) }
    ensures refused { IsErrOf result load.NotASite → IsUtf8 bytes.now → option_and_then file_lines (parse_document bytes.now) ≡ None }
{
    match toml::table_from_slice(alloc, bytes) {
        Ok(file) => {
            let mut lines = Vec::new(alloc);
            add_file(alloc, &mut lines, &file)?;
            Ok(lines)
        }
        Err(fault) => {
            if fault.is_memory() {
                Err(LoadFault::NoMemory)
            } else {
                Err(LoadFault::NotASite)
            }
        }
    }
}

fn add_file(alloc: Global, lines: &mut Vec<Line>, file: &Table) -> Result<(), LoadFault>
    ensures { Adds (file_lines (table_view file.now)) lines.old.items lines.new.items result }
{
    if has_keys(&FILE_KEYS, file) {
        add_all(alloc, lines, file)
    } else {
        Err(LoadFault::NotASite)
    }
}

fn add_all(alloc: Global, lines: &mut Vec<Line>, file: &Table) -> Result<(), LoadFault>
    ensures { Adds (all_lines (table_view file.now)) lines.old.items lines.new.items result }
{
    add_zone(alloc, lines, file)?;
    add_units(alloc, lines, file)?;
    add_clients(alloc, lines, file)?;
    add_policies(alloc, lines, file)
}

fn add_zone(alloc: Global, lines: &mut Vec<Line>, file: &Table) -> Result<(), LoadFault>
    ensures { Adds (zone_lines (get_member (codes "zone") (table_view file.now))) lines.old.items lines.new.items result }
{
    match value_at(file, "zone") {
        None => Ok(()),
        Some(Value::Table(members)) => add_zone_itself(alloc, lines, members),
        Some(_) => Err(LoadFault::NotASite),
    }
}

fn add_zone_itself(alloc: Global, lines: &mut Vec<Line>, members: &Table) -> Result<(), LoadFault>
    ensures { Adds (zone_line (table_view members.now)) lines.old.items lines.new.items result }
{
    let form = form_of(alloc, b"bpzone", b"set")?;
    add_request(alloc, lines, form, &ZONE_KEYS, &[], members)
}

fn add_units(alloc: Global, lines: &mut Vec<Line>, file: &Table) -> Result<(), LoadFault>
    ensures { Adds (tables_at (codes "unit") unit_line (table_view file.now)) lines.old.items lines.new.items result }
{
    let form = form_of(alloc, b"unit", b"add")?;
    add_tables(alloc, lines, &form, &UNIT_KEYS, items_at(file, "unit")?)
}

fn add_clients(alloc: Global, lines: &mut Vec<Line>, file: &Table) -> Result<(), LoadFault>
    ensures { Adds (tables_at (codes "client") client_line (table_view file.now)) lines.old.items lines.new.items result }
{
    let form = form_of(alloc, b"client", b"add")?;
    add_tables(alloc, lines, &form, &CLIENT_KEYS, items_at(file, "client")?)
}

// Adds the request of each table of an array, with these first words.
fn add_tables(
    alloc: Global,
    lines: &mut Vec<Line>,
    form: &[Text],
    keys: &[&[u8]],
    tables: &[Value],
) -> Result<(), LoadFault>
    ensures { Adds (of_items (table_with (λ members. one (request_of form.now (map (λ k. k.now) keys.now) [] members))) (items_view tables.now)) lines.old.items lines.new.items result }
{
    for item in tables {
        add_table(alloc, lines, form, keys, item)?;
    }
    Ok(())
}

fn add_table(
    alloc: Global,
    lines: &mut Vec<Line>,
    form: &[Text],
    keys: &[&[u8]],
    table: &Value,
) -> Result<(), LoadFault>
    ensures { Adds (table_with (λ members. one (request_of form.now (map (λ k. k.now) keys.now) [] members)) (view table.now)) lines.old.items lines.new.items result }
{
    match table {
        Value::Table(members) => {
            let words = copy_all(alloc, form)?;
            add_request(alloc, lines, words, keys, &[], members)
        }
        _ => Err(LoadFault::NotASite),
    }
}

fn add_policies(alloc: Global, lines: &mut Vec<Line>, file: &Table) -> Result<(), LoadFault>
    ensures { Adds (tables_at (codes "policy") policy_lines (table_view file.now)) lines.old.items lines.new.items result }
{
    let policies = items_at(file, "policy")?;
    for item in policies {
        add_policy(alloc, lines, item)?;
    }
    Ok(())
}

fn add_policy(alloc: Global, lines: &mut Vec<Line>, policy: &Value) -> Result<(), LoadFault>
    ensures { Adds (table_with policy_lines (view policy.now)) lines.old.items lines.new.items result }
{
    match policy {
        Value::Table(members) => {
            add_policy_itself(alloc, lines, members)?;
            add_parts(alloc, lines, members)
        }
        _ => Err(LoadFault::NotASite),
    }
}

fn add_policy_itself(alloc: Global, lines: &mut Vec<Line>, members: &Table) -> Result<(), LoadFault>
    ensures { Adds (policy_line (table_view members.now)) lines.old.items lines.new.items result }
{
    let form = form_of(alloc, b"bppolicynew", b"add")?;
    add_request(alloc, lines, form, &POLICY_KEYS, &POLICY_PARTS, members)
}

// Adds the parts of a policy, which has to have a name.
fn add_parts(alloc: Global, lines: &mut Vec<Line>, members: &Table) -> Result<(), LoadFault>
    ensures { Adds (option_and_then (parts_of (table_view members.now)) (policy_name (table_view members.now))) lines.old.items lines.new.items result }
{
    let policy = policy_name(alloc, members)?;
    add_parts_of(alloc, lines, members, policy.bytes())
}

fn policy_name(alloc: Global, members: &Table) -> Result<Text, LoadFault>
    ensures { Reads (policy_name (table_view members.now)) result }
{
    match value_at(members, "policy") {
        Some(value) => text_of(alloc, value),
        None => Err(LoadFault::NotASite),
    }
}

fn add_parts_of(
    alloc: Global,
    lines: &mut Vec<Line>,
    members: &Table,
    policy: &[u8],
) -> Result<(), LoadFault>
    ensures { Adds (parts_of (table_view members.now) policy.now) lines.old.items lines.new.items result }
{
    add_listed(alloc, lines, members, policy)?;
    add_selections(alloc, lines, members, policy)?;
    add_schedules(alloc, lines, members, policy)
}

// Adds the clients that a policy lists.
fn add_listed(
    alloc: Global,
    lines: &mut Vec<Line>,
    members: &Table,
    policy: &[u8],
) -> Result<(), LoadFault>
    ensures { Adds (clients_of (table_view members.now) policy.now) lines.old.items lines.new.items result }
{
    let form = on_policy(alloc, b"bppolicynew", b"client-add", policy)?;
    let clients = items_at(members, "clients")?;
    for item in clients {
        let client = text_of(alloc, item)?;
        let word = word_of(alloc, b"client", client.bytes())?;
        add_with_word(alloc, lines, &form, word)?;
    }
    Ok(())
}

fn add_selections(
    alloc: Global,
    lines: &mut Vec<Line>,
    members: &Table,
    policy: &[u8],
) -> Result<(), LoadFault>
    ensures { Adds (selections_of (table_view members.now) policy.now) lines.old.items lines.new.items result }
{
    let form = on_policy(alloc, b"bppolicynew", b"select", policy)?;
    let paths = items_at(members, "selections")?;
    for item in paths {
        let path = written_path(alloc, &text_of(alloc, item)?)?;
        let word = word_of(alloc, b"path", path.bytes())?;
        add_with_word(alloc, lines, &form, word)?;
    }
    Ok(())
}

fn add_schedules(
    alloc: Global,
    lines: &mut Vec<Line>,
    members: &Table,
    policy: &[u8],
) -> Result<(), LoadFault>
    ensures { Adds (schedules_of (table_view members.now) policy.now) lines.old.items lines.new.items result }
{
    let form = on_policy(alloc, b"bpplsched", b"add", policy)?;
    add_tables(
        alloc,
        lines,
        &form,
        &SCHEDULE_KEYS,
        items_at(members, "schedule")?,
    )
}

// Adds a request with one word more.
fn add_with_word(
    alloc: Global,
    lines: &mut Vec<Line>,
    form: &[Text],
    word: Text,
) -> Result<(), NoMemory>
    ensures { OnOk result (lines.new.items ≡ lines.old.items ++ (form.now ++ word ∷ []) ∷ []) }
{
    let mut words = copy_all(alloc, form)?;
    words.push(word)?;
    lines.push(ListOf::from_vec(words))?;
    Ok(())
}
