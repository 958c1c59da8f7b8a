//! Two messages of our own: one of two rows, and one with a row of each kind.
ghost use Rattle.std.specs.Prelude.{map, refl};
ghost use Rattle.schema.specs.Shape.{Number, Fixed, Bytes, Text, One, Many, End, I32, I64, U64};

use pb_wire::*;
use std::alloc::Global;

/// Two rows.
#[derive(Debug, Drop)]
pub struct Leaf<'a> {
    pub count: i32,
    pub name: TextRef<'a>,
}

impl<'a> Rows for Leaf<'a> {
    ghost shape = { One 1 (Number I32) (One 2 Text End) };

    ghost view = { λ m. (m.count, (m.name, tt)) };

    ghost message = { tt };

    ghost lawful = { refl };

    fn rows_len<I: NewIndexes>(&self, _indexes: &I) -> u64 {
        number_len(1, self.count) + text_len(2, &self.name)
    }

    fn put_rows<I: NewIndexes>(&self, _indexes: &I, out: &mut Blob) -> Result<(), NoMemory> {
        put_number(out, 1, self.count)?;
        put_text(out, 2, &self.name)?;
        Ok(())
    }
}

impl<'a> Wire<'a> for Leaf<'a> {
    fn none(_alloc: Global) -> Leaf<'a> {
        Leaf {
            count: 0,
            name: TextRef::empty(),
        }
    }

    fn take(&mut self, _alloc: Global, field: &Field<'a>) -> Result<(), ReadFault> {
        match field.number {
            1 => take_number(&mut self.count, field),
            2 => take_text(&mut self.name, field),
            _ => Ok(()),
        }
    }
}

/// A row of each kind.
#[derive(Debug, Drop)]
pub struct Tree<'a> {
    pub leaf: Leaf<'a>,
    pub leaves: List<Leaf<'a>>,
    pub time: u64,
    pub duration: u64,
    pub period: i64,
    pub id: BytesRef<'a>,
    pub times: List<u64>,
    pub payloads: List<BytesRef<'a>>,
    pub indices: List<i32>,
    pub names: List<TextRef<'a>>,
}

impl<'a> Rows for Tree<'a> {
    ghost shape = { One 1 (One 1 (Number I32) (One 2 Text End)) (Many 2 (One 1 (Number I32) (One 2 Text End)) (One 3 Fixed (One 4 (Number U64) (One 6 (Number I64)
        (One 7 Bytes (Many 8 Fixed (Many 10 Bytes (Many 11 (Number I32) (Many 12 Text End))))))))) };

    ghost view = { λ m. (
      (m.leaf.count, (m.leaf.name, tt)),
      (
        map (λ l. (l.count, (l.name, tt))) m.leaves,
        (
          m.time,
          (
            m.duration,
            (
              m.period,
              (m.id, (m.times, (m.payloads, (map (λ x. x) m.indices, (m.names, tt))))),
            ),
          ),
        ),
      ),
    ) };

    ghost message = { tt };

    ghost lawful = { refl };

    fn rows_len<I: NewIndexes>(&self, indexes: &I) -> u64 {
        message_len(1, &self.leaf, indexes)
            + messages_len(2, self.leaves.as_slice(), indexes)
            + fixed_len(3, self.time)
            + number_len(4, self.duration)
            + number_len(6, self.period)
            + bytes_len(7, &self.id)
            + fixed_list_len(8, self.times.as_slice())
            + bytes_list_len(10, self.payloads.as_slice())
            + numbers_len(11, self.indices.as_slice())
            + text_list_len(12, self.names.as_slice())
    }

    #[tactic(auto, using(pb_wire::proofs::Prefixes::growing))]
    fn put_rows<I: NewIndexes>(&self, indexes: &I, out: &mut Blob) -> Result<(), NoMemory> {
        put_message(out, 1, &self.leaf, indexes)?;
        put_messages(out, 2, self.leaves.as_slice(), indexes)?;
        put_fixed(out, 3, self.time)?;
        put_number(out, 4, self.duration)?;
        put_number(out, 6, self.period)?;
        put_bytes(out, 7, &self.id)?;
        put_fixed_list(out, 8, self.times.as_slice())?;
        put_bytes_list(out, 10, self.payloads.as_slice())?;
        put_numbers(out, 11, self.indices.as_slice())?;
        put_text_list(out, 12, self.names.as_slice())?;
        Ok(())
    }
}

impl<'a> Wire<'a> for Tree<'a> {
    fn none(alloc: Global) -> Tree<'a> {
        Tree {
            leaf: Leaf::none(alloc),
            leaves: List::begin(alloc),
            time: 0,
            duration: 0,
            period: 0,
            id: BytesRef::empty(),
            times: List::begin(alloc),
            payloads: List::begin(alloc),
            indices: List::begin(alloc),
            names: List::begin(alloc),
        }
    }

    fn take(&mut self, alloc: Global, field: &Field<'a>) -> Result<(), ReadFault> {
        match field.number {
            1 => take_message(&mut self.leaf, alloc, field),
            2 => add_message(&mut self.leaves, alloc, field),
            3 => take_fixed(&mut self.time, field),
            4 => take_number(&mut self.duration, field),
            6 => take_number(&mut self.period, field),
            7 => take_bytes(&mut self.id, field),
            8 => add_fixed(&mut self.times, field),
            10 => add_bytes(&mut self.payloads, field),
            11 => add_number(&mut self.indices, field),
            12 => add_text(&mut self.names, field),
            _ => Ok(()),
        }
    }
}
