ghost use Rattle.std.specs.Prelude.{◌≡◌, option_map, flat_map, IfOk, IfErr};
ghost use Rattle.std.specs.List.{AllByRecursion};
ghost use Rattle.mongo_command.specs.Command.{read_concern_elements, read_concern_document, timestamp_bytes};
ghost use Rattle.mongo_command.specs.Arguments.{field_elements, IsNamed, TooLongFor};

use crate::argument_field::{ArgumentField, optional_text_field, optional_timestamp_field};
use crate::arguments::document_of;
use mongo_bson::{BsonFault, RawDocumentBuf, Text, TryClone, copy_of};
use std::alloc::Global;

// What a read may see, by the read concern specification. A time is in seconds since 1970, with a count within the second.
#[derive(Debug, Default, Drop)]
pub(crate) struct ReadConcern {
    // the level
    pub(crate) level: Option<Text>,
    // the time of the snapshot that is read
    pub(crate) at_cluster_time: Option<(u32, u32)>,
    // the time that the read comes after
    pub(crate) after_cluster_time: Option<(u32, u32)>,
}

impl ReadConcern {
    // The document of those parts that are there.
    pub(crate) fn to_document(&self, alloc: Global) -> Result<RawDocumentBuf, BsonFault>
        ensures document { IfOk result (λ document. document ≡ read_concern_document self.now) }
        ensures refused { IfErr result (λ fault. TooLongFor fault (read_concern_document self.now)) }
    {
        let at_cluster_time = timestamp(self.at_cluster_time);
        let after_cluster_time = timestamp(self.after_cluster_time);
        let fields = self.fields(&at_cluster_time, &after_cluster_time);
        document_of(alloc, &fields)
    }

    // The parts in their order; the times as the bytes of their timestamps.
    fn fields<'a>(
        &'a self,
        at_cluster_time: &'a Option<[u8; 8]>,
        after_cluster_time: &'a Option<[u8; 8]>,
    ) -> [ArgumentField<'a>; 3]
        requires at { at_cluster_time.now ≡ option_map timestamp_bytes self.now.at_cluster_time }
        requires after { after_cluster_time.now ≡ option_map timestamp_bytes self.now.after_cluster_time }
        ensures elements { flat_map field_elements result ≡ read_concern_elements self.now }
        ensures named { AllByRecursion IsNamed result }
    {
        [
            optional_text_field("level", &self.level),
            optional_timestamp_field("atClusterTime", at_cluster_time),
            optional_timestamp_field("afterClusterTime", after_cluster_time),
        ]
    }
}

impl TryClone for ReadConcern {
    fn try_clone(&self, alloc: Global) -> Result<ReadConcern, BsonFault> {
        Ok(ReadConcern {
            level: copy_of(alloc, &self.level)?,
            at_cluster_time: self.at_cluster_time,
            after_cluster_time: self.after_cluster_time,
        })
    }
}

// The bytes of a BSON timestamp: the count within the second comes first, and then the seconds.
fn timestamp(time: Option<(u32, u32)>) -> Option<[u8; 8]>
    ensures { result ≡ option_map timestamp_bytes time }
{
    let (seconds, increment) = time?;
    let [i0, i1, i2, i3] = increment.to_le_bytes();
    let [s0, s1, s2, s3] = seconds.to_le_bytes();
    Some([i0, i1, i2, i3, s0, s1, s2, s3])
}
