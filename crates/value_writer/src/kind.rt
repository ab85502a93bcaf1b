//! Kinds of values: what a line of a list names.

/// How the parts of a storage are laid out.
#[derive(Clone, Copy, PartialEq, Eq)]
pub(crate) enum Layout {
    Vec,
    DenseVec,
    DefaultVec,
    HashMap,
    BTree,
    Null,
}

impl Layout {
    /// The name of the storage.
    pub(crate) fn name(self) -> &'static str {
        match self {
            Layout::Vec => "VecStorage",
            Layout::DenseVec => "DenseVecStorage",
            Layout::DefaultVec => "DefaultVecStorage",
            Layout::HashMap => "HashMapStorage",
            Layout::BTree => "BTreeStorage",
            Layout::Null => "NullStorage",
        }
    }

    /// The module that declares the storage, below that of all layouts.
    pub(crate) fn module(self) -> &'static str {
        match self {
            Layout::Vec => "storages.vec",
            Layout::DenseVec => "storages.dense_vec",
            Layout::DefaultVec => "storages.default_vec",
            Layout::HashMap => "storages.hash_map",
            Layout::BTree => "storages.btree",
            Layout::Null => "storages.null",
        }
    }
}

/// All layouts, by the names of their storages.
pub(crate) const LAYOUTS: [Layout; 6] = [
    Layout::BTree,
    Layout::DefaultVec,
    Layout::DenseVec,
    Layout::HashMap,
    Layout::Null,
    Layout::Vec,
];

/// What the parts of a scene's column are.
#[derive(Clone, Copy)]
pub(crate) enum Holds<'a> {
    /// A number, which stands in data as this variant.
    Number(&'a str),
    /// A reference, which stands in data as this variant.
    Reference(&'a str),
    /// What the crate says of them.
    Parts,
}

/// What a kind of values holds.
#[derive(Clone, Copy)]
pub(crate) enum Form<'a> {
    /// Parts that are components of the crate.
    Stored(Layout),
    /// Such parts, whose changes are told.
    Flagged(Layout),
    /// Markers with whole numbers, for a type.
    Simple(&'a str),
    /// Markers with UUIDs that a type draws.
    Uuid(&'a str),
    /// A resource of the crate.
    Own,
    /// A resource of the library.
    Library(&'static str),
    /// A resource of the library, over a type.
    Over(&'static str, &'a str),
    /// The markers of a scene.
    Markers,
    /// The commands of a scene's system, over a type of data.
    Queue(&'a str),
    /// A plain column of a scene.
    Column(Holds<'a>),
    /// A global of a scene, which is a number.
    Global,
}

impl<'a> Form<'a> {
    /// Whether it is a storage.
    pub(crate) fn is_storage(self) -> bool {
        match self {
            Form::Stored(_) | Form::Flagged(_) | Form::Simple(_) | Form::Uuid(_) => true,
            _ => false,
        }
    }

    /// Whether it is a storage of the crate's own components.
    pub(crate) fn is_component(self) -> bool {
        match self {
            Form::Stored(_) | Form::Flagged(_) => true,
            _ => false,
        }
    }

    /// Whether it is a plain column of a scene.
    pub(crate) fn is_column(self) -> bool {
        match self {
            Form::Column(_) => true,
            _ => false,
        }
    }

    /// Whether it is a column of numbers.
    pub(crate) fn is_number(self) -> bool {
        match self {
            Form::Column(Holds::Number(_)) => true,
            _ => false,
        }
    }

    /// Whether it is a column of references.
    pub(crate) fn is_reference(self) -> bool {
        match self {
            Form::Column(Holds::Reference(_)) => true,
            _ => false,
        }
    }

    /// Whether it is a column of numbers or references.
    pub(crate) fn is_plain(self) -> bool {
        self.is_number() || self.is_reference()
    }

    /// Whether it is a column of which the crate says what is stored.
    pub(crate) fn is_parts(self) -> bool {
        match self {
            Form::Column(Holds::Parts) => true,
            _ => false,
        }
    }

    /// Whether it is a global of a scene.
    pub(crate) fn is_global(self) -> bool {
        match self {
            Form::Global => true,
            _ => false,
        }
    }

    /// Whether it is a resource of a world of values.
    pub(crate) fn is_resource(self) -> bool {
        match self {
            Form::Queue(_) | Form::Global => false,
            _ => true,
        }
    }

    /// The variant of data that the parts of a column are.
    pub(crate) fn variant(self) -> Option<&'a str> {
        match self {
            Form::Column(Holds::Number(name) | Holds::Reference(name)) => Some(name),
            _ => None,
        }
    }

    /// Whether changes are told.
    pub(crate) fn is_flagged(self) -> bool {
        match self {
            Form::Flagged(_) => true,
            _ => false,
        }
    }

    /// The layout of a storage.
    pub(crate) fn layout(self) -> Option<Layout> {
        match self {
            Form::Stored(layout) | Form::Flagged(layout) => Some(layout),
            Form::Simple(_) => Some(Layout::DenseVec),
            Form::Uuid(_) => Some(Layout::Vec),
            _ => None,
        }
    }

    /// The type of the library over which a marker or a resource is, or which the resource is.
    pub(crate) fn head(self) -> Option<&'static str> {
        match self {
            Form::Simple(_) => Some("SimpleMarker"),
            Form::Uuid(_) => Some("UuidMarker"),
            Form::Library(head) | Form::Over(head, _) => Some(head),
            _ => None,
        }
    }

    /// The type that stands between the angle brackets.
    pub(crate) fn of(self) -> Option<&'a str> {
        match self {
            Form::Simple(of) | Form::Uuid(of) | Form::Over(_, of) => Some(of),
            _ => None,
        }
    }
}

/// What a field may be as which parts are saved.
pub(crate) const PLAIN: [&str; 9] = ["bool", "i16", "i32", "i64", "i8", "u16", "u32", "u64", "u8"];

/// A kind of values: its name, and what it holds.
#[derive(Clone, Copy)]
pub(crate) struct Kind<'a> {
    pub(crate) name: &'a str,
    pub(crate) form: Form<'a>,
    /// What the only field of its parts is, as which they are saved.
    pub(crate) saved: Option<&'static str>,
}

impl<'a> Kind<'a> {
    /// The type of the crate that the kind needs.
    pub(crate) fn part(&self) -> Option<&'a str> {
        match self.form {
            Form::Stored(_) | Form::Flagged(_) | Form::Own | Form::Column(_) => Some(self.name),
            Form::Queue(data) => Some(data),
            _ => self.form.of(),
        }
    }
}

/// A system of a scene's rules: its name, and what it reads and writes.
#[derive(Clone, Copy)]
pub(crate) struct System<'a> {
    pub(crate) name: &'a str,
    /// Words: `reads` or `writes`, with the names of columns and globals behind each.
    pub(crate) access: &'a str,
}
