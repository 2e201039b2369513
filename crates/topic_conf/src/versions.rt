/// Which versions of the calls are served.
#[derive(Clone, Copy, Debug)]
pub enum Versions {
    /// Each call in one version.
    Exact,
    /// Also the older versions that stock producers speak.
    Wide,
    /// All that are known.
    All,
}
