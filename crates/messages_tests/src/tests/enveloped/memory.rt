//! Reading a type of `der_enveloped` or of `der_time_stamp` takes no memory.

use crate::tests::holds;
use der_asn1_types::TakesMemory;
use der_enveloped::authenticated::{AuthAttributes, AuthenticatedData, UnauthAttributes};
use der_enveloped::enveloped::{
    EnvelopedData, KekIdentifier, KekRecipientInfo, KeyAgreeRecipientIdentifier,
    KeyAgreeRecipientInfo, KeyTransRecipientInfo, OriginatorIdentifierOrKey, OriginatorInfo,
    OriginatorPublicKey, OtherKeyAttribute, OtherRecipientInfo, PasswordRecipientInfo,
    RecipientEncryptedKey, RecipientEncryptedKeys, RecipientIdentifier, RecipientInfo,
    RecipientInfoFirst, RecipientInfoOther, RecipientInfos, RecipientKeyIdentifier,
    UserKeyingMaterial,
};
use der_time_stamp::time_stamp::{
    Accuracy, MessageImprint, PkiFailureInfo, PkiFreeText, PkiStatus, PkiStatusInfo, TimeStampReq,
    TimeStampReqVersion, TimeStampResp, TimeStampToken, TsaPolicyId, TstInfo, TstInfoVersion,
};

#[test]
fn no_enveloped_message_takes_memory(rt: HostRuntime) {
    holds(&rt, !<EnvelopedData as TakesMemory>::TAKES_MEMORY);
    holds(&rt, !<OriginatorInfo as TakesMemory>::TAKES_MEMORY);
}

#[test]
fn no_recipient_takes_memory(rt: HostRuntime) {
    holds(&rt, !<KekIdentifier as TakesMemory>::TAKES_MEMORY);
    holds(&rt, !<KekRecipientInfo as TakesMemory>::TAKES_MEMORY);
    holds(&rt, !<KeyTransRecipientInfo as TakesMemory>::TAKES_MEMORY);
    holds(&rt, !<OtherKeyAttribute as TakesMemory>::TAKES_MEMORY);
    holds(&rt, !<OtherRecipientInfo as TakesMemory>::TAKES_MEMORY);
    holds(&rt, !<PasswordRecipientInfo as TakesMemory>::TAKES_MEMORY);
    holds(&rt, !<RecipientIdentifier as TakesMemory>::TAKES_MEMORY);
    holds(&rt, !<RecipientInfo as TakesMemory>::TAKES_MEMORY);
    holds(&rt, !<RecipientInfoFirst as TakesMemory>::TAKES_MEMORY);
    holds(&rt, !<RecipientInfoOther as TakesMemory>::TAKES_MEMORY);
    holds(&rt, !<RecipientInfos as TakesMemory>::TAKES_MEMORY);
    holds(&rt, !<RecipientKeyIdentifier as TakesMemory>::TAKES_MEMORY);
}

#[test]
fn no_recipient_that_agrees_takes_memory(rt: HostRuntime) {
    holds(
        &rt,
        !<KeyAgreeRecipientIdentifier as TakesMemory>::TAKES_MEMORY,
    );
    holds(&rt, !<KeyAgreeRecipientInfo as TakesMemory>::TAKES_MEMORY);
    holds(
        &rt,
        !<OriginatorIdentifierOrKey as TakesMemory>::TAKES_MEMORY,
    );
    holds(&rt, !<OriginatorPublicKey as TakesMemory>::TAKES_MEMORY);
    holds(&rt, !<RecipientEncryptedKey as TakesMemory>::TAKES_MEMORY);
    holds(&rt, !<RecipientEncryptedKeys as TakesMemory>::TAKES_MEMORY);
    holds(&rt, !<UserKeyingMaterial as TakesMemory>::TAKES_MEMORY);
}

#[test]
fn no_authenticated_message_takes_memory(rt: HostRuntime) {
    holds(&rt, !<AuthAttributes as TakesMemory>::TAKES_MEMORY);
    holds(&rt, !<AuthenticatedData as TakesMemory>::TAKES_MEMORY);
    holds(&rt, !<UnauthAttributes as TakesMemory>::TAKES_MEMORY);
}

#[test]
fn no_time_stamp_takes_memory(rt: HostRuntime) {
    holds(&rt, !<Accuracy as TakesMemory>::TAKES_MEMORY);
    holds(&rt, !<MessageImprint as TakesMemory>::TAKES_MEMORY);
    holds(&rt, !<PkiFailureInfo as TakesMemory>::TAKES_MEMORY);
    holds(&rt, !<PkiFreeText as TakesMemory>::TAKES_MEMORY);
    holds(&rt, !<PkiStatus as TakesMemory>::TAKES_MEMORY);
    holds(&rt, !<PkiStatusInfo as TakesMemory>::TAKES_MEMORY);
    holds(&rt, !<TimeStampReq as TakesMemory>::TAKES_MEMORY);
    holds(&rt, !<TimeStampReqVersion as TakesMemory>::TAKES_MEMORY);
    holds(&rt, !<TimeStampResp as TakesMemory>::TAKES_MEMORY);
    holds(&rt, !<TimeStampToken as TakesMemory>::TAKES_MEMORY);
    holds(&rt, !<TsaPolicyId as TakesMemory>::TAKES_MEMORY);
    holds(&rt, !<TstInfo as TakesMemory>::TAKES_MEMORY);
    holds(&rt, !<TstInfoVersion as TakesMemory>::TAKES_MEMORY);
}
