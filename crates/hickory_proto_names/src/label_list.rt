//! The labels of a name.
ghost use Rattle.std.specs.Prelude.{◌≡◌, IfOk, IfSome, None, length};
ghost use Rattle.hickory_proto_names.specs.Name.{canonical_form, label_bytes, label_fault};

use crate::canonical::SharedLabels;
use std::alloc::{AllocError, Global};
use std::fmt;
use std::marker::Model;
use std::sync::Arc;

// A list of labels without a fault. A copy shares the memory of its source where that is shared already.
#[derive(Drop)]
pub(crate) struct LabelList {
    kept: Kept,
}

#[derive(Drop)]
enum Kept {
    Own(Vec<Vec<u8>>),
    Shared(Arc<SharedLabels>),
}

impl Model for LabelList {
    ghost use Rattle.std.specs.Prelude.{◌≡◌, List, None, ℕ};
    ghost use Rattle.hickory_proto_names.specs.LabelList.{kept_labels};
    ghost use Rattle.hickory_proto_names.specs.Name.{label_fault};

    ghost Value = { List (List ℕ) };

    ghost view = { λ l. kept_labels l.kept };

    ghost invariant = { λ l. label_fault (kept_labels l.kept) ≡ None };
}

impl LabelList {
    // Takes no memory.
    pub(crate) fn own(labels: Vec<Vec<u8>>) -> LabelList
        requires { label_fault (label_bytes labels.items) ≡ None }
        ensures { result ≡ label_bytes labels.items }
    {
        LabelList {
            kept: Kept::Own(labels),
        }
    }

    pub(crate) fn shared(labels: Vec<Vec<u8>>) -> Result<LabelList, AllocError>
        requires { label_fault (label_bytes labels.items) ≡ None }
        ensures { IfOk result (λ ls. ls ≡ label_bytes labels.items) }
    {
        let alloc = *labels.allocator();
        let labels = Arc::new(alloc, SharedLabels::new(labels)?)?;
        Ok(LabelList {
            kept: Kept::Shared(labels),
        })
    }

    pub(crate) fn as_slice(&self) -> &[Vec<u8>]
        ensures labels { label_bytes result.now ≡ self.now }
        ensures count { length result.now ≡ length self.now }
    {
        match &self.kept {
            Kept::Own(labels) => labels.as_slice(),
            Kept::Shared(labels) => labels.as_slice(),
        }
    }

    // The canonical form, where it is kept: that of labels that are shared.
    pub(crate) fn canonical(&self) -> Option<&[u8]>
        ensures { IfSome result (λ form. form.now ≡ canonical_form self.now) }
    {
        match &self.kept {
            Kept::Own(_) => None,
            Kept::Shared(labels) => Some(labels.canonical()),
        }
    }

    pub(crate) fn allocator(&self) -> Global {
        match &self.kept {
            Kept::Own(labels) => *labels.allocator(),
            Kept::Shared(labels) => labels.allocator(),
        }
    }

    // The same labels, of which copies take no memory.
    pub(crate) fn share(self) -> Result<LabelList, AllocError>
        ensures { IfOk result (λ ls. ls ≡ self) }
    {
        let LabelList { kept } = self;
        match kept {
            Kept::Own(labels) => LabelList::shared(labels),
            Kept::Shared(labels) => Ok(LabelList {
                kept: Kept::Shared(labels),
            }),
        }
    }

    // The labels to write to, copied where they are shared with another name.
    pub(crate) fn into_vec(self) -> Result<Vec<Vec<u8>>, AllocError>
        ensures { IfOk result (λ v. label_bytes v.items ≡ self) }
    {
        let LabelList { kept } = self;
        match kept {
            Kept::Own(labels) => Ok(labels),
            Kept::Shared(labels) => match Arc::try_unwrap(labels) {
                Ok(labels) => Ok(labels.into_labels()),
                Err(labels) => labels.to_labels(),
            },
        }
    }
}

// A copy equals its source.
impl Clone for LabelList {
    ghost use Rattle.std.specs.Prelude.{◌≡◌};

    ghost is_clone = { λ labels copy. copy ≡ labels };

    fn clone(&self) -> Result<LabelList, AllocError> {
        let kept = match &self.kept {
            Kept::Own(labels) => return LabelList::shared(labels.clone()?),
            Kept::Shared(labels) => Kept::Shared(Arc::try_clone(labels)?),
        };
        Ok(LabelList { kept })
    }
}

impl fmt::Debug for LabelList {
    fn fmt<W: fmt::Write>(&self, f: &mut fmt::Formatter<W>) -> fmt::Result {
        fmt::Debug::fmt(self.as_slice(), f)
    }
}
