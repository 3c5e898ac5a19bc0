ghost use Rattle.std.specs.Prelude.{◌≡◌};

/// How a run ended.
#[derive(Clone, Copy, Debug, PartialEq, Eq)]
pub enum Status {
    /// The report was said whole.
    Done { all_closed: bool },
    /// The words ask for nothing that there is.
    Usage,
    /// A call on the host failed.
    HostFailed,
    /// The file or the certificate is longer than what is read, or the file isn't UTF-8.
    BadInput,
    /// Memory ran out.
    Memory,
}

impl Status {
    ghost use Rattle.alg_run.specs.Run.{code_of};

    /// The exit status.
    pub fn code(&self) -> u8
        ensures { result ≡ code_of self.now }
    {
        match self {
            Status::Done { all_closed: true } => 0,
            Status::Done { all_closed: false } => 1,
            Status::Usage => 2,
            Status::HostFailed => 3,
            Status::Memory => 4,
            Status::BadInput => 5,
        }
    }
}

/// How a run ended, with the two causes of bad input apart.
#[derive(Clone, Copy, Debug, PartialEq, Eq)]
pub enum Ending {
    Done { all_closed: bool },
    Usage,
    HostFailed,
    TooLong,
    NotText,
    Memory,
}

impl Ending {
    ghost use Rattle.alg_run.specs.Run.{status_of, complaint_of};

    pub fn status(self) -> Status
        ensures { result ≡ status_of self }
    {
        match self {
            Ending::Done { all_closed } => Status::Done { all_closed },
            Ending::Usage => Status::Usage,
            Ending::HostFailed => Status::HostFailed,
            Ending::TooLong => Status::BadInput,
            Ending::NotText => Status::BadInput,
            Ending::Memory => Status::Memory,
        }
    }

    /// The line on standard error, or nothing.
    pub fn complaint(self) -> &'static str
        ensures { result.now ≡ complaint_of self }
    {
        match self {
            Ending::Done { .. } => "",
            Ending::Usage =>
                "usage: algebra prove FILE [--cert OUT] [--without LIST] | check FILE CERT | demo N [--without LIST]\n",
            Ending::HostFailed => "algebra: cannot read or write\n",
            Ending::TooLong => "algebra: input too long\n",
            Ending::NotText => "algebra: input is not UTF-8\n",
            Ending::Memory => "algebra: out of memory\n",
        }
    }
}
