use crate::num_ext::NumExt;
use crate::sign_ext::SignExt;

/// The extensions of a run, each list with one of equal length that tells which are on.
pub struct Exts<'a> {
    pub num: &'a [Box<dyn NumExt>],
    pub num_on: &'a [bool],
    pub sign: &'a [Box<dyn SignExt>],
    pub sign_on: &'a [bool],
}
