//! The test of the indexes of samples.
ghost use Rattle.std.specs.Prelude.{◌≡◌, ◌<◌, ◌^◌, length, map};
ghost use Rattle.schema.specs.Each.{Each};
ghost use Rattle.schema.specs.Messages.{sample};
ghost use Rattle.schema.specs.Spell.{spell};
ghost use Rattle.prof_rec.specs.SampleRefs.{sample_of};
ghost use Rattle.prof_rec.specs.Views.{sample_view};
ghost use Rattle.otlp_msg.specs.Lengths.{lengths_view};
ghost use Rattle.otlp_msg.specs.Walk.{entered};
ghost use Rattle.otlp_msg.specs.Within.{each_within, value_within, HasPlaces};

use crate::table_lengths::TableLengths;
use crate::{Holder, Refusal};
use dict_rec::TableKind;
use prof_rec::{SampleRef, Samples};

impl TableLengths {
    /// Tests each index of a sample.
    fn test_sample(&self, found: &SampleRef<'_>, holder: Holder) -> Result<(), Refusal>
        requires { HasPlaces sample (sample_view (sample_of found.now)) }
        ensures { result ≡ value_within sample (lengths_view self.now) holder (sample_view (sample_of found.now)) }
    {
        self.test(TableKind::Stack, found.stack_index, holder, 1, 0)?;
        self.test_indexes(TableKind::Attribute, found.attribute_indices, holder, 3)?;
        self.test(TableKind::Link, found.link_index, holder, 4, 0)?;
        Ok(())
    }

    /// Tests the indexes of repeated samples.
    pub fn test_samples(&self, samples: &Samples, holder: Holder, field: u32) -> Result<(), Refusal>
        requires few { length samples.now < 2 ^ 32 }
        requires each { Each (λ x. HasPlaces sample x × (length (spell sample x) < 2 ^ 32)) (map sample_view samples.now) }
        ensures { result ≡ each_within (λ i. value_within sample (lengths_view self.now) (entered holder field i)) 0 (map sample_view samples.now) }
    {
        for place in 0..samples.len() {
            let found = samples.at(place);
            let entered = holder.entered(field, place as u32);
            if let Err(refusal) = self.test_sample(&found, entered) {
                return Err(refusal);
            }
        }
        Ok(())
    }
}
