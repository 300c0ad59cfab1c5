//! What may be wrong with a superblock.
ghost use Rattle.std.specs.Prelude.{◌≡◌};
ghost use Rattle.bc_super.specs.declared.error.SuperError.TheVariants as errors;

use bc_disk::disk::Failed;
use thiserror::Error;

/// Why a device has no superblock that can be used. The calls that read a superblock say which of
/// these they answer, and in which order they test.
#[derive(Clone, Copy, Debug, PartialEq, Eq, Drop, Error)]
pub enum SuperError {
    /// Bytes 24 to 39 aren't the magic.
    #[error("bytes 24 to 39 of the superblock are not the magic")]
    Magic,
    /// The bytes haven't the checksum that they tell.
    #[error("the superblock does not have the checksum that it tells")]
    Checksum,
    /// The version, which isn't one that the device may have.
    #[error("version {0} is not one that the device may have")]
    Version(u64),
    /// The superblock says that it stands in another sector than 8.
    #[error("the superblock says that it stands in another sector than 8")]
    Place,
    /// The block isn't 1, 2, 4 or 8 sectors.
    #[error("a block is not 1, 2, 4 or 8 sectors")]
    Block,
    /// The bucket isn't a power of two from 64 to 32,768 sectors.
    #[error("a bucket is not a power of two from 64 to 32,768 sectors")]
    Bucket,
    /// There are fewer than 128 buckets.
    #[error("there are fewer than 128 buckets")]
    FewBuckets,
    /// There are more buckets than 1,024 times the sectors of one, or more than 1,048,576.
    #[error("there are more buckets than there may be")]
    ManyBuckets,
    /// The device has fewer than 16 sectors, or fewer than its buckets have.
    #[error("the device is too small")]
    DeviceSmall,
    /// The uuid of the set is zero.
    #[error("the uuid of the set is zero")]
    ZeroUuid,
    /// The set has another number of devices than 1, or the device another number in it than 0.
    #[error("the device is not the only one of its set")]
    SetNumber,
    /// The first bucket begins before sector 16, or isn't one of the device's buckets.
    #[error("the first bucket is not where one may begin")]
    FirstBucket,
    /// The journal has more than 256 buckets, or not those that follow from the first bucket on, or
    /// some past the last one, or from 1 to 7 of them on a device that was set up.
    #[error("the list of journal buckets is not one that there may be")]
    JournalList,
    /// Data would begin before sector 16, or at none of the device's sectors.
    #[error("data would begin where it may not")]
    DataOffset,
    /// A cache device is needed that was set up. No call of this crate answers it.
    #[error("the cache device was not set up")]
    NotInitialised,
    /// The backing device was used without a cache that had data which it lacked.
    #[error("the backing device was used without the cache that had its data")]
    Stale,
    /// The backing device belongs to another set than the cache. No call of this crate answers it.
    #[error("the backing device belongs to another set")]
    OtherSet,
    /// The two devices are in use. No call of this crate answers it.
    #[error("the devices are in use")]
    Initialised,
    /// The device failed while its superblock was read.
    #[error("the device failed")]
    Fault,
    /// A feature word is set, of which nothing is known.
    #[error("a feature word is set")]
    Features,
}

impl SuperError {
    ghost use Rattle.bc_super.specs.Super.{number_of};

    /// The number by which the error is printed.
    pub fn number(&self) -> u8
        ensures { result ≡ number_of self.now }
    {
        match self {
            SuperError::Magic => 1,
            SuperError::Checksum => 2,
            SuperError::Version(_) => 3,
            SuperError::Place => 4,
            SuperError::Block => 5,
            SuperError::Bucket => 6,
            SuperError::FewBuckets => 7,
            SuperError::ManyBuckets => 8,
            SuperError::DeviceSmall => 9,
            SuperError::ZeroUuid => 10,
            SuperError::SetNumber => 11,
            SuperError::FirstBucket => 12,
            SuperError::JournalList => 13,
            SuperError::DataOffset => 14,
            SuperError::NotInitialised => 15,
            SuperError::Stale => 16,
            SuperError::OtherSet => 17,
            SuperError::Initialised => 18,
            SuperError::Fault => 19,
            SuperError::Features => 20,
        }
    }
}

impl From<Failed> for SuperError {
    ghost from_gives = { λ _ e. e ≡ errors.Fault };

    fn from(_failed: Failed) -> SuperError {
        SuperError::Fault
    }
}
