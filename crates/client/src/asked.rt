use sessions::Request;

/// A request that was asked and not answered yet.
pub struct Asked {
    pub request: Request,
    /// Whether its reply is left out of what the client is given.
    pub quiet: bool,
}

impl Drop for Asked {
    fn drop(self) {
        let Asked {
            request: _,
            quiet: _,
        } = self;
    }
}
