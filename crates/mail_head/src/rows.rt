//! Worked examples: each states what the definition gives, and its body is empty.

ghost use Rattle.std.specs.Prelude.{◌≡◌, [], ◌++◌, codes, replicate, Some, None};
ghost use Rattle.mail_head.specs.MessageIds.{message_id_of};

/// The ids that heads have.
pub fn message_ids()
    ensures one { message_id_of (codes "Subject: hi\r\nMessage-ID: <a@b>\r\n\r\nhello\r\n") ≡ Some (codes "<a@b>") }
    ensures first_of_two { message_id_of (codes "Message-ID: <a@b>\r\nMessage-ID: <c@d>\r\n\r\n")
        ≡ Some (codes "<a@b>") }
    ensures other_case { message_id_of (codes "message-id :  <a@b> \r\n\r\n") ≡ Some (codes "<a@b>") }
    ensures tabs { message_id_of (codes "MESSAGE-ID\t:\t<a@b>\t\r\n\r\n") ≡ Some (codes "<a@b>") }
    ensures no_body { message_id_of (codes "Message-ID: <a@b>\r\n") ≡ Some (codes "<a@b>") }
    ensures no_end { message_id_of (codes "Message-ID: <a@b>") ≡ Some (codes "<a@b>") }
    ensures empty { message_id_of (codes "Message-ID:\r\n\r\n") ≡ Some [] }
    ensures not_in_brackets { message_id_of (codes "Message-ID: a b (c)\r\n\r\n") ≡ Some (codes "a b (c)") }
    ensures long { message_id_of (codes "Message-ID: " ++ replicate 300 120 ++ codes "\r\n\r\n")
        ≡ Some (replicate 250 120) }
{}

/// Those in fields that go on in further lines.
pub fn folded_ids()
    ensures at_once { message_id_of (codes "Message-ID:\r\n <a@b>\r\n\r\n") ≡ Some (codes "<a@b>") }
    ensures by_tab { message_id_of (codes "Message-ID:\r\n\t<a@b>\r\nTo: x\r\n\r\n") ≡ Some (codes "<a@b>") }
    ensures within { message_id_of (codes "Message-ID: <a\r\n @b>\r\n\r\n") ≡ Some (codes "<a@b>") }
    ensures twice { message_id_of (codes "Message-ID: <a\r\n\t@\r\n  b>\r\n\r\n") ≡ Some (codes "<a@ b>") }
    ensures blank_line { message_id_of (codes "Message-ID:\r\n \r\n <a@b>\r\n\r\n") ≡ Some (codes "<a@b>") }
    ensures looks_like_one { message_id_of (codes "Subject: x\r\n Message-ID: <a@b>\r\n\r\n") ≡ None }
    ensures goes_on_like_one { message_id_of (codes "Message-ID: a\r\n Message-ID: b\r\n\r\n")
        ≡ Some (codes "aMessage-ID: b") }
    ensures past_the_head { message_id_of (codes "Message-ID: <a@b>\r\n\r\n more\r\n") ≡ Some (codes "<a@b>") }
{}

/// Texts that are no id of the message.
pub fn no_ids()
    ensures nothing { message_id_of [] ≡ None }
    ensures no_field { message_id_of (codes "Subject: hi\r\n\r\nhello\r\n") ≡ None }
    ensures body { message_id_of (codes "Subject: hi\r\n\r\nMessage-ID: <a@b>\r\n") ≡ None }
    ensures no_head { message_id_of (codes "\r\nMessage-ID: <a@b>\r\n") ≡ None }
    ensures other_name { message_id_of (codes "X-Message-ID: x\r\n\r\n") ≡ None }
    ensures longer_name { message_id_of (codes "Message-IDs: x\r\n\r\n") ≡ None }
    ensures no_colon { message_id_of (codes "Message-ID\r\n : <a@b>\r\n\r\n") ≡ None }
    ensures blank_before { message_id_of (codes " Message-ID: <a@b>\r\n\r\n") ≡ None }
    ensures after_lf { message_id_of (codes "Subject: x\nMessage-ID: <a@b>\r\n\r\n") ≡ None }
    ensures after_cr { message_id_of (codes "Subject: x\rMessage-ID: <a@b>\r\n\r\n") ≡ None }
    ensures lf_within { message_id_of (codes "Message-ID: <a\n b>\r\n\r\n") ≡ Some (codes "<a\n b>") }
{}

/// What stands at the end of the bytes that are looked at.
pub fn last_bytes()
    ensures cut { message_id_of (codes "To: " ++ replicate 4072 120 ++ codes "\r\nMessage-ID: <abcdefg@h>\r\n\r\n")
        ≡ Some (codes "<abcde") }
    ensures too_late { message_id_of (codes "To: " ++ replicate 4090 120 ++ codes "\r\nMessage-ID: <a@b>\r\n\r\n")
        ≡ None }
{}
