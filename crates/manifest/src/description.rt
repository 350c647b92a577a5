//! The description of a table.

ghost use Rattle.std.specs.Prelude.{◌≡◌, ◌<◌, IfOk, IfErr, Err, [], map};
ghost use Rattle.std.specs.List.{AllByRecursion};
ghost use Rattle.std.specs.Rc.{rc_value};
ghost use Rattle.bits.specs.Refusals.{RefusedOnly, RefusedMemoryOnly};
ghost use Rattle.schema.specs.Keys.{AreKeys, AreDistinct, key_columns_view, without_keys};
ghost use Rattle.partition.specs.Order.{AreInTableOrder};
ghost use Rattle.manifest.specs.Handles.{Group, groups_of_blocks};
ghost use Rattle.manifest.specs.Ordered.{Keys-prop, InTableOrder-prop, Distinct-prop, Below-prop};
ghost use Rattle.manifest.specs.Records.{IsGroup};
ghost use Rattle.manifest.specs.OneProof.{Groups-prop};

use crate::handles::handle_of;
use crate::laws::{a_laid_out_root_means_its_table, a_root_means_one_table};
use crate::reading::read_root;
use crate::stored::stored_schema;
use crate::version::Version;
use crate::writing::root_to_bytes;
use bits::{R, Refusal};
use schema::{KeyColumn, Schema};
use std::alloc::Global;
use std::rc::Rc;

/// What a root describes: the table's schema and its key columns, which can partition it, the next group number, and the
/// groups in table order, each of which such a table can have, and none of which has the number of another, or one that is
/// not below the next.
#[derive(Debug, Drop)]
pub struct Manifest {
    schema: Rc<Schema>,
    stored: Rc<Schema>,
    keys: Rc<Vec<KeyColumn>>,
    next: u64,
    groups: Version,
    ghost besides_keys: { rc_value stored ≡ without_keys (key_columns_view (rc_value keys).items) (rc_value schema) },
    ghost keyed: { AreKeys (key_columns_view (rc_value keys).items) (rc_value schema) } by { Keys-prop (key_columns_view (rc_value keys).items) (rc_value schema) },
    ghost in_order: { AreInTableOrder (map (λ (g : Group). g.key) (groups_of_blocks (rc_value groups.blocks).items)) } by { InTableOrder-prop (map (λ (g : Group). g.key) (groups_of_blocks (rc_value groups.blocks).items)) },
    ghost distinct: { AreDistinct (map (λ (g : Group). g.number) (groups_of_blocks (rc_value groups.blocks).items)) } by { Distinct-prop (map (λ (g : Group). g.number) (groups_of_blocks (rc_value groups.blocks).items)) },
    ghost below: { AllByRecursion (λ (g : Group). g.number < next) (groups_of_blocks (rc_value groups.blocks).items) } by { Below-prop next (groups_of_blocks (rc_value groups.blocks).items) },
    ghost each: { AllByRecursion (IsGroup (key_columns_view (rc_value keys).items) (without_keys (key_columns_view (rc_value keys).items) (rc_value schema))) (groups_of_blocks (rc_value groups.blocks).items) } by { Groups-prop (key_columns_view (rc_value keys).items) (without_keys (key_columns_view (rc_value keys).items) (rc_value schema)) (groups_of_blocks (rc_value groups.blocks).items) },
}

impl Manifest {
    ghost use Rattle.manifest.specs.Groups.{Root, root_of, groups_in, keys_of, numbers_of};
    ghost use Rattle.manifest.specs.Root.{RootMeans, IsDescription, CanHave, stored_of};
    ghost use Rattle.manifest.specs.Laid.{IsRootLaidOut, IsRootTooHeavy};
    ghost use Rattle.manifest.specs.Faults.{HasRootFault};

    /// The description of an empty table with these key columns, which can partition a table of this schema
    /// ([`partition::key_columns`] makes them).
    ///
    /// Refused only for memory; time and room are linear in the schema.
    pub fn new(alloc: Global, schema: Schema, keys: Vec<KeyColumn>) -> R<Manifest>
        requires { AreKeys (key_columns_view keys.items) schema }
        ensures made { IfOk result (λ m. root_of m ≡ record { schema = schema; keys = key_columns_view keys.items; next = 0; groups = [] }) }
        ensures described { IfOk result (λ m. IsDescription (root_of m)) }
        ensures which { RefusedMemoryOnly result }
    {
        // For the proof: both are within the limits of a schema.
        let _ = schema.leaves();
        let stored = stored_schema(alloc, &schema, keys.as_slice())?;
        let _ = stored.leaves();
        let groups = Version::empty(alloc)?;
        let schema = handle_of(alloc, schema)?;
        let stored = handle_of(alloc, stored)?;
        let keys = handle_of(alloc, keys)?;
        Ok(Manifest {
            schema,
            stored,
            keys,
            next: 0,
            groups,
        })
    }

    /// The table's schema, its key columns among the others. Takes no memory.
    pub fn schema(&self) -> &Schema
        ensures { result.now ≡ (root_of self.now).schema }
    {
        &self.schema
    }

    /// The schema of its files: without the key columns. A file that was written before a field was added lacks it. Takes
    /// no memory.
    pub fn stored(&self) -> &Schema
        ensures { result.now ≡ stored_of (root_of self.now) }
    {
        &self.stored
    }

    /// Its key columns, in the order of the folders. Takes no memory.
    pub fn keys(&self) -> &[KeyColumn]
        ensures are { key_columns_view result.now ≡ (root_of self.now).keys }
        ensures keyed { AreKeys (key_columns_view result.now) (root_of self.now).schema }
    {
        self.keys.as_slice()
    }

    /// The next group number. Takes no memory.
    pub fn next(&self) -> u64
        ensures { result ≡ (root_of self.now).next }
    {
        self.next
    }

    /// Its groups, in table order. Takes no memory.
    pub fn groups(&self) -> &Version
        ensures are { groups_in result.now ≡ (root_of self.now).groups }
        ensures in_order { AreInTableOrder (keys_of (groups_in result.now)) }
        ensures distinct { AreDistinct (numbers_of (groups_in result.now)) }
        ensures below { AllByRecursion (λ (g : Group). g.number < (root_of self.now).next) (groups_in result.now) }
        ensures each { CanHave (root_of self.now) (groups_in result.now) }
    {
        &self.groups
    }

    /// This description with other groups, which such a table can have and which stand in table order under numbers of their
    /// own, and this next number, which is above them. Takes no memory; refused only where there are too many handles.
    pub fn with_groups(&self, groups: Version, next: u64) -> R<Manifest>
        requires in_order { AreInTableOrder (keys_of (groups_in groups)) }
        requires distinct { AreDistinct (numbers_of (groups_in groups)) }
        requires below { AllByRecursion (λ (g : Group). g.number < next) (groups_in groups) }
        requires each { CanHave (root_of self.now) (groups_in groups) }
        ensures made { IfOk result (λ m. root_of m ≡ record (root_of self.now) { next = next; groups = groups_in groups }) }
        ensures which { RefusedMemoryOnly result }
    {
        let schema = self.schema.clone()?;
        let stored = self.stored.clone()?;
        let keys = self.keys.clone()?;
        Ok(Manifest {
            schema,
            stored,
            keys,
            next,
            groups,
        })
    }

    /// This description with another schema, in which the key columns are at the same places, and whose table can have the
    /// groups. They are shared: each keeps the fields of its file.
    ///
    /// Refused only for memory; time and room are linear in the schema.
    pub fn with_schema(&self, alloc: Global, schema: Schema) -> R<Manifest>
        requires keyed { AreKeys (root_of self.now).keys schema }
        requires each { AllByRecursion (IsGroup (root_of self.now).keys (without_keys (root_of self.now).keys schema)) (root_of self.now).groups }
        ensures made { IfOk result (λ m. root_of m ≡ record (root_of self.now) { schema = schema }) }
        ensures which { RefusedMemoryOnly result }
    {
        let stored = stored_schema(alloc, &schema, self.keys.as_slice())?;
        let schema = handle_of(alloc, schema)?;
        let stored = handle_of(alloc, stored)?;
        let keys = self.keys.clone()?;
        let groups = self.groups.share()?;
        Ok(Manifest {
            schema,
            stored,
            keys,
            next: self.next,
            groups,
        })
    }

    /// For the proof: it can be described.
    fn is_described(&self)
        ensures { IsDescription (root_of self.now) }
    {
        let _ = self.schema.leaves();
        let _ = self.stored.leaves();
        let _next = self.next;
    }

    /// The bytes of a root with this description: `PAR1`; the record, whose groups' chunks name their part files, with
    /// the keys and the next number as key-values; its length, and `PAR1`. (parquet.thrift, FileMetaData.)
    ///
    /// Refused Limit only where the footer weighs more than it may have. Time and room are linear in the chunks.
    pub fn to_bytes(&self, alloc: Global) -> R<Vec<u8>>
        ensures means { IfOk result (λ bytes. RootMeans bytes.items (root_of self.now)) }
        ensures laid_out { IfOk result (λ bytes. IsRootLaidOut bytes.items (root_of self.now)) }
        ensures limit { result ≡ Err Refusal.Limit → IsRootTooHeavy (root_of self.now) }
        ensures which { RefusedOnly (λ e. e ≡ Refusal.Limit) result }
    {
        a_laid_out_root_means_its_table();
        self.is_described();
        root_to_bytes(
            alloc,
            &self.stored,
            self.keys.as_slice(),
            self.next,
            &self.groups,
        )
    }

    /// The description that the bytes of a root give.
    ///
    /// Refused only where they give none: Truncated, Magic, Thrift and Limit as [`footer::read_footer`] is; Schema, Float
    /// and Int96 as [`Schema::new`] is; Schema also where a group's chunks are not those of the leaves of the first
    /// fields, or one of the fields that it lacks is not OPTIONAL; Codec for a compressed chunk; Page for sizes, offsets,
    /// counts and statistics that cannot be, and for groups without rows, out of table order, or with a number given
    /// twice or not below the next; Limit for more rows or entries than are read; Key for columns that cannot partition;
    /// NoTable where the keys or the next number are absent or not of their form. Time and room are linear in the bytes,
    /// beside a search among the numbers.
    pub fn from_bytes(alloc: Global, bytes: &[u8]) -> R<Manifest>
        ensures stands { IfOk result (λ m. RootMeans bytes.now (root_of m)) }
        ensures alone { IfOk result (λ m. (other : Root) → RootMeans bytes.now other → other ≡ root_of m) }
        ensures only { IfErr result (λ e. (e ≡ Refusal.Memory → ⊥) → (root : Root) → RootMeans bytes.now root → ⊥) }
        ensures which { RefusedOnly (HasRootFault bytes.now) result }
    {
        a_root_means_one_table();
        let read = read_root(alloc, bytes)?;
        let groups = Version::of(alloc, read.groups.as_slice())?;
        let schema = handle_of(alloc, read.schema)?;
        let stored = handle_of(alloc, read.stored)?;
        let keys = handle_of(alloc, read.keys)?;
        Ok(Manifest {
            schema,
            stored,
            keys,
            next: read.next,
            groups,
        })
    }
}
