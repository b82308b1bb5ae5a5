//! The faults of a mix.

/// What is wrong with a record. Of one record they are tested in this order.
#[derive(Clone, Copy, Debug, PartialEq, Eq)]
pub enum MixKind {
    /// Not four fields, an unknown first field, a field that should be empty, a name or a number of the wrong form; a
    /// first record that isn't `tasks`, or a later one that is; no record at all.
    Form,
    /// The number of tasks isn't 1 to 1,024, a demand isn't 1 to 10,000, or a time is above 1,000,000,000.
    Range,
    /// A model's name is that of an earlier one.
    RepeatedModel,
    /// No earlier record has a model of this name.
    UnknownModel,
    /// The record has the 17th model.
    TooManyModels,
    /// A number stands for none of the tasks.
    BadTask,
    /// The model has a time of this task already.
    RepeatedTime,
    /// The record has the 524,289th arc.
    TooManyArcs,
    /// No record has a model.
    NoModel,
}

/// The first record at fault, and what is wrong with it.
#[derive(Clone, Copy, Debug, PartialEq, Eq)]
pub struct MixFault {
    /// The number of the record, counted from 1; the number of records plus 1 where no model was named.
    pub row: u64,
    /// What is wrong.
    pub kind: MixKind,
}
