//! The forms of attributes: DWARF 4, section 7.5.4, figure 21.

ghost use Rattle.std.specs.Prelude.{◌≡◌};
ghost use Rattle.om_die.specs.Forms.{form_of};

use crate::constants::{
    DW_FORM_ADDR, DW_FORM_BLOCK, DW_FORM_BLOCK1, DW_FORM_BLOCK2, DW_FORM_BLOCK4, DW_FORM_DATA1,
    DW_FORM_DATA2, DW_FORM_DATA4, DW_FORM_DATA8, DW_FORM_EXPRLOC, DW_FORM_FLAG,
    DW_FORM_FLAG_PRESENT, DW_FORM_INDIRECT, DW_FORM_REF_ADDR, DW_FORM_REF_SIG8, DW_FORM_REF_UDATA,
    DW_FORM_REF1, DW_FORM_REF2, DW_FORM_REF4, DW_FORM_REF8, DW_FORM_SDATA, DW_FORM_SEC_OFFSET,
    DW_FORM_STRING, DW_FORM_STRP, DW_FORM_UDATA,
};

/// How the value of an attribute is spelled, by the standard's names without `DW_FORM_`.
#[derive(Clone, Copy, Debug, PartialEq, Eq)]
pub enum Form {
    Addr,
    Block2,
    Block4,
    Data2,
    Data4,
    Data8,
    String,
    Block,
    Block1,
    Data1,
    Flag,
    Sdata,
    Strp,
    Udata,
    RefAddr,
    Ref1,
    Ref2,
    Ref4,
    Ref8,
    RefUdata,
    Indirect,
    SecOffset,
    Exprloc,
    FlagPresent,
    RefSig8,
}

impl Form {
    /// The form of a code, where it is one that is read.
    #[tactic(auto, unfolding(crate::specs::Forms::form_of))]
    pub fn of(code: u64) -> Option<Form>
        ensures { result ≡ form_of code }
    {
        match code {
            DW_FORM_ADDR => Some(Form::Addr),
            DW_FORM_BLOCK2 => Some(Form::Block2),
            DW_FORM_BLOCK4 => Some(Form::Block4),
            DW_FORM_DATA2 => Some(Form::Data2),
            DW_FORM_DATA4 => Some(Form::Data4),
            DW_FORM_DATA8 => Some(Form::Data8),
            DW_FORM_STRING => Some(Form::String),
            DW_FORM_BLOCK => Some(Form::Block),
            DW_FORM_BLOCK1 => Some(Form::Block1),
            DW_FORM_DATA1 => Some(Form::Data1),
            DW_FORM_FLAG => Some(Form::Flag),
            DW_FORM_SDATA => Some(Form::Sdata),
            DW_FORM_STRP => Some(Form::Strp),
            DW_FORM_UDATA => Some(Form::Udata),
            DW_FORM_REF_ADDR => Some(Form::RefAddr),
            DW_FORM_REF1 => Some(Form::Ref1),
            DW_FORM_REF2 => Some(Form::Ref2),
            DW_FORM_REF4 => Some(Form::Ref4),
            DW_FORM_REF8 => Some(Form::Ref8),
            DW_FORM_REF_UDATA => Some(Form::RefUdata),
            DW_FORM_INDIRECT => Some(Form::Indirect),
            DW_FORM_SEC_OFFSET => Some(Form::SecOffset),
            DW_FORM_EXPRLOC => Some(Form::Exprloc),
            DW_FORM_FLAG_PRESENT => Some(Form::FlagPresent),
            DW_FORM_REF_SIG8 => Some(Form::RefSig8),
            _ => None,
        }
    }
}
