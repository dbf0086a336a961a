//! The records.

ghost use Rattle.std.specs.Prelude.{◌≡◌, IfOk};
ghost use Rattle.serde_json.specs.View.{view, members_view};
ghost use Rattle.std.specs.List.{insert};
ghost use Rattle.txn_types.specs.Values.{max_value, IsValue, AreValues};
ghost use Rattle.doc_forms.specs.declared.fault.Which.TheVariants as word;
ghost use Rattle.doc_forms.specs.Answers.{Gives};
ghost use Rattle.doc_forms.specs.Forms.{seen, number_in};
ghost use Rattle.doc_forms.specs.Sorted.{IsGap};
ghost use Rattle.doc_tables.specs.Records.{pair, next_record, records};

use doc_forms::{
    DocFault, SortedNames, Turn, Which, double_fault, field_fault, list_at, name, number_in,
};
use serde_json::{Map, Value};
use std::alloc::Global;
use std::marker::Model;
use txn_types::{GrowingList, MAX, Name, Names, OutOfMemory, Values};

/// The records of a document, in byte order of their names, and the value of each.
#[derive(Drop)]
pub struct Records {
    names: SortedNames,
    values: GrowingList<u64>,
}

impl Model for Records {
    ghost use Rattle.std.specs.Prelude.{◌≡◌, length};
    ghost use Rattle.txn_types.specs.Values.{AreValues};
    ghost use Rattle.doc_tables.specs.RecordsMeaning.{Valued};

    ghost Value = { Valued };

    ghost view = { λ r. record { names = r.names; values = r.values } };

    ghost invariant = { λ r. (length r.values ≡ length r.names) × AreValues r.values };
}

impl Records {
    ghost use Rattle.std.specs.Prelude.{◌≡◌, IfOk};

    /// The names, in byte order.
    pub fn names(&self) -> &SortedNames
        ensures { result.now ≡ self.now.names }
    {
        &self.names
    }

    /// The names and the values as lists.
    pub fn into_parts(self, alloc: Global) -> Result<(Names, Values), OutOfMemory>
        ensures { IfOk result (λ parts. (parts.0 ≡ self.names) × (parts.1 ≡ self.values)) }
    {
        let values = values_of(alloc, self.values.as_slice())?;
        Ok((self.names.into_names(), values))
    }
}

// The same values, one after another.
fn values_of(alloc: Global, list: &[u64]) -> Result<Values, OutOfMemory>
    requires { AreValues list.now }
    ensures { IfOk result (λ values. values ≡ list.now) }
{
    let mut values = Values::new(alloc);
    for value in list {
        values.push(*value)?;
    }
    Ok(values)
}

#[tactic(auto, using(doc_forms::proofs::Lists::length_of_items), unfolding(crate::specs::Records::pair))]
fn pair(alloc: Global, item: &Value) -> Result<(), DocFault>
    ensures { Gives (λ u. u) result (pair (view item.now)) }
{
    let Some(list) = item.as_array() else {
        return Err(field_fault(alloc));
    };
    if list.len() == 2 {
        Ok(())
    } else {
        Err(field_fault(alloc))
    }
}

#[tactic(auto, using(crate::proofs::RecordsKept::read_value))]
fn value_in(alloc: Global, value: Option<&Value>) -> Result<u64, DocFault>
    ensures check { Gives (λ n. n) result (number_in 0 max_value word.Value (seen value.entry)) }
    ensures value { IfOk result IsValue }
{
    number_in(alloc, 0, MAX, Which::Value, value)
}

// A record put at its place.
#[tactic(auto, using(crate::proofs::RecordsKept::values_after, crate::proofs::RecordsKept::lengths_after))]
fn with_record(
    records: Records,
    place: usize,
    name: Name,
    value: u64,
) -> Result<Records, OutOfMemory>
    requires place { IsGap records.names name place }
    requires value { IsValue value }
    ensures { IfOk result (λ after. after ≡ record { names = insert records.names place name; values = insert records.values place value }) }
{
    let Records {
        mut names,
        mut values,
    } = records;
    names.insert(place, name)?;
    values.insert(place, value)?;
    Ok(Records { names, values })
}

#[derive(Clone, Copy, Drop)]
struct NextRecord;

impl Turn for NextRecord {
    type State = Records;

    ghost check = { λ s. next_record };

    #[tactic(auto, unfolding(crate::specs::Records::next_record))]
    fn turn(&self, alloc: Global, done: Records, item: &Value) -> Result<Records, DocFault> {
        pair(alloc, item)?;
        let text = name(alloc, item.get(0usize))?;
        match done.names.search(text.as_slice()) {
            Ok(_) => Err(double_fault(alloc)),
            Err(place) => {
                let n = value_in(alloc, item.get(1usize))?;
                Ok(with_record(done, place, text, n)?)
            }
        }
    }
}

/// The records, in byte order of their names.
#[tactic(auto, unfolding(crate::specs::Records::records))]
pub fn read_records(alloc: Global, members: &Map<String, Value>) -> Result<Records, DocFault>
    ensures { Gives (λ r. r) result (records (members_view members.now.entries)) }
{
    list_at(
        alloc,
        members,
        "records",
        0,
        4096,
        Which::Records,
        &NextRecord,
        Records {
            names: SortedNames::new(alloc),
            values: GrowingList::new(alloc),
        },
    )
}
