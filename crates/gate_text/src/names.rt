use crate::context::Context;
use crate::label::Label;
use crate::list::List;
use crate::name::Name;
use crate::set::Set;

/// A list of names in an order. A contract sees it as the list of the names.
pub type Names = List<Name>;

/// A list of labels in an order. A contract sees it as the list of the labels.
pub type Labels = List<Label>;

/// A list of names of statuses in an order. A contract sees it as the list of the names.
pub type Contexts = List<Context>;

/// A set of names. A contract sees it as the finite set of the names.
pub type NameSet = Set<Name>;

/// A set of labels. A contract sees it as the finite set of the labels.
pub type LabelSet = Set<Label>;

/// A set of names of statuses. A contract sees it as the finite set of the names.
pub type ContextSet = Set<Context>;
