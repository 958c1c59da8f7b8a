//! The texts of entries that name strings and attributes alone.

use crate::attributes::{put_attributes, put_string};
use crate::{EntryText, EntryTexts, Meanings};
use dict_rec::{Attr, Function, Link, Mapping};
use line_text::{TextOut, put_bytes, put_number, put_text, put_value};
use pb_wire::TextRef;

impl<'a, D: Meanings, T, O: TextOut<T>> EntryText<'a, D, T, O> for TextRef<'a> {
    fn put_text(&self, _texts: &D, out: &mut O, to: &mut T) {
        put_text(out, to, self);
    }
}

impl<'a, D: Meanings, T, O: TextOut<T>> EntryText<'a, D, T, O> for Link<'a> {
    fn put_text(&self, _texts: &D, out: &mut O, to: &mut T) {
        put_bytes(out, to, &self.trace_id);
        out.put(to, b" ");
        put_bytes(out, to, &self.span_id);
    }
}

impl<'a, D, T, O> EntryText<'a, D, T, O> for Attr<'a>
where
    O: TextOut<T>,
    D: EntryTexts<'a, TextRef<'a>, T, O>,
{
    fn put_text(&self, texts: &D, out: &mut O, to: &mut T) {
        out.put(to, b"attr ");
        put_string(texts, out, to, &self.key_strindex);
        out.put(to, b" ");
        put_value(out, to, &self.value);
        out.put(to, b" unit ");
        put_string(texts, out, to, &self.unit_strindex);
        out.put(to, b"\n");
    }
}

impl<'a, D, T, O> EntryText<'a, D, T, O> for Function
where
    O: TextOut<T>,
    D: EntryTexts<'a, TextRef<'a>, T, O>,
{
    fn put_text(&self, texts: &D, out: &mut O, to: &mut T) {
        out.put(to, b"start ");
        put_number(out, to, &self.start_line);
        out.put(to, b" name ");
        put_string(texts, out, to, &self.name_strindex);
        out.put(to, b" system ");
        put_string(texts, out, to, &self.system_name_strindex);
        out.put(to, b" file ");
        put_string(texts, out, to, &self.filename_strindex);
    }
}

impl<'a, D, T, O> EntryText<'a, D, T, O> for Mapping
where
    O: TextOut<T>,
    D: EntryTexts<'a, TextRef<'a>, T, O> + EntryTexts<'a, Attr<'a>, T, O>,
{
    fn put_text(&self, texts: &D, out: &mut O, to: &mut T) {
        out.put(to, b"          mapping ");
        put_number(out, to, &self.memory_start);
        out.put(to, b" ");
        put_number(out, to, &self.memory_limit);
        out.put(to, b" ");
        put_number(out, to, &self.file_offset);
        out.put(to, b" ");
        put_string(texts, out, to, &self.filename_strindex);
        out.put(to, b"\n");
        put_attributes(texts, out, to, 6, self.attribute_indices.as_slice());
    }
}
