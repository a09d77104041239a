// Why a session ends before the last statement.
use thiserror::Error;

/// Why a session ends before the last statement.
#[derive(Clone, Copy, Debug, PartialEq, Eq, Error)]
pub enum SessionFault {
    #[error("write failed")]
    Write,
    #[error("out of memory")]
    Memory,
}
