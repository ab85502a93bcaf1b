//! Files, piece by piece.
use crate::fill::put_filled;
use crate::kind::{Form, Kind};
use crate::list::List;
use std::alloc::AllocError;

/// A piece of a file: a template, and for which kinds it is filled.
#[derive(Clone, Copy)]
pub(crate) enum Piece {
    /// Once.
    Once(&'static str),
    /// Once, where the changes of a kind are told.
    OnceToldOf(&'static str),
    /// Once, where a column is of numbers.
    OnceNumbers(&'static str),
    /// Once, where a column is of references.
    OnceReferences(&'static str),
    /// Once, where a column is of one of both.
    OncePlain(&'static str),
    /// Once, where there is no global.
    NoGlobal(&'static str),
    /// For each kind.
    All(&'static str),
    /// For each storage.
    Storages(&'static str),
    /// For each storage of the crate's own components.
    Components(&'static str),
    /// For each storage of components that are saved.
    Saved(&'static str),
    /// For each storage whose changes are told.
    Flagged(&'static str),
    /// For each kind, the first where it is a storage, and else the second.
    Either(&'static str, &'static str),
    /// For each kind whose values are resources.
    Resources(&'static str),
    /// For each plain column.
    Columns(&'static str),
    /// For each plain column but the last, and the last.
    ColumnsLast(&'static str, &'static str),
    /// For each column of numbers.
    Numbers(&'static str),
    /// For each column of references.
    References(&'static str),
    /// For each column of other parts.
    Parts(&'static str),
    /// For each global.
    Globals(&'static str),
    /// For each global but the last, and the last.
    GlobalsLast(&'static str, &'static str),
    /// For each system of a scene's rules.
    Systems(&'static str),
}

/// A template, where it is filled.
fn template_if(is: bool, template: &'static str) -> Option<&'static str> {
    if is { Some(template) } else { None }
}

/// Whether no column stands behind a kind.
fn is_last_column(list: &List, kind: &Kind) -> bool {
    let mut is_last = false;
    for other in &list.kinds {
        if other.form.is_column() {
            is_last = other.name == kind.name;
        }
    }
    is_last
}

/// Whether no global stands behind a kind.
fn is_last_global(list: &List, kind: &Kind) -> bool {
    let mut is_last = false;
    for other in &list.kinds {
        if other.form.is_global() {
            is_last = other.name == kind.name;
        }
    }
    is_last
}

impl Piece {
    /// The template that is filled for a kind of a list.
    fn template(self, list: &List, kind: &Kind) -> Option<&'static str> {
        match self {
            Piece::Once(_)
            | Piece::OnceToldOf(_)
            | Piece::OnceNumbers(_)
            | Piece::OnceReferences(_)
            | Piece::OncePlain(_)
            | Piece::NoGlobal(_)
            | Piece::Systems(_) => None,
            Piece::All(template) => Some(template),
            Piece::Storages(template) => template_if(kind.form.is_storage(), template),
            Piece::Components(template) => template_if(kind.form.is_component(), template),
            Piece::Saved(template) => template_if(kind.saved.is_some(), template),
            Piece::Flagged(template) => template_if(kind.form.is_flagged(), template),
            Piece::Either(one, other) => if kind.form.is_storage() {
                Some(one)
            } else {
                Some(other)
            },
            Piece::Resources(template) => template_if(kind.form.is_resource(), template),
            Piece::Columns(template) => template_if(kind.form.is_column(), template),
            Piece::Numbers(template) => template_if(kind.form.is_number(), template),
            Piece::References(template) => template_if(kind.form.is_reference(), template),
            Piece::Parts(template) => template_if(kind.form.is_parts(), template),
            Piece::Globals(template) => template_if(kind.form.is_global(), template),
            Piece::ColumnsLast(one, last) => if !kind.form.is_column() {
                None
            } else if is_last_column(list, kind) {
                Some(last)
            } else {
                Some(one)
            },
            Piece::GlobalsLast(one, last) => if !kind.form.is_global() {
                None
            } else if is_last_global(list, kind) {
                Some(last)
            } else {
                Some(one)
            },
        }
    }
}

/// Puts a piece for each kind that it is filled for.
fn put_kinds(out: &mut Vec<u8>, list: &List, piece: Piece) -> Result<(), AllocError> {
    for kind in &list.kinds {
        if let Some(template) = piece.template(list, kind) {
            put_filled(out, list, kind, template)?;
        }
    }
    Ok(())
}

/// Puts a template for each system.
fn put_systems(out: &mut Vec<u8>, list: &List, template: &str) -> Result<(), AllocError> {
    for system in &list.systems {
        let named = Kind {
            name: system.name,
            form: Form::Own,
            saved: None,
        };
        put_filled(out, list, &named, template)?;
    }
    Ok(())
}

/// Puts a template once.
fn put_once(out: &mut Vec<u8>, list: &List, template: &str) -> Result<(), AllocError> {
    let nothing = Kind {
        name: "",
        form: Form::Own,
        saved: None,
    };
    put_filled(out, list, &nothing, template)
}

/// Puts a template once, where it is filled.
fn put_once_if(out: &mut Vec<u8>, list: &List, is: bool, template: &str) -> Result<(), AllocError> {
    if is {
        put_once(out, list, template)
    } else {
        Ok(())
    }
}

/// Puts a piece.
fn put_piece(out: &mut Vec<u8>, list: &List, piece: Piece) -> Result<(), AllocError> {
    match piece {
        Piece::Once(template) => put_once(out, list, template),
        Piece::OnceToldOf(template) => {
            put_once_if(
                out,
                list,
                list.kinds.iter().any(|kind| kind.form.is_flagged()),
                template,
            )
        }
        Piece::OnceNumbers(template) => {
            put_once_if(
                out,
                list,
                list.kinds.iter().any(|kind| kind.form.is_number()),
                template,
            )
        }
        Piece::OnceReferences(template) => {
            put_once_if(
                out,
                list,
                list.kinds.iter().any(|kind| kind.form.is_reference()),
                template,
            )
        }
        Piece::OncePlain(template) => {
            put_once_if(
                out,
                list,
                list.kinds.iter().any(|kind| kind.form.is_plain()),
                template,
            )
        }
        Piece::NoGlobal(template) => {
            put_once_if(
                out,
                list,
                !list.kinds.iter().any(|kind| kind.form.is_global()),
                template,
            )
        }
        Piece::Systems(template) => put_systems(out, list, template),
        _ => put_kinds(out, list, piece),
    }
}

/// Puts pieces, one behind the other.
pub(crate) fn put_pieces(
    out: &mut Vec<u8>,
    list: &List,
    pieces: &[Piece],
) -> Result<(), AllocError> {
    for piece in pieces {
        put_piece(out, list, *piece)?;
    }
    Ok(())
}
