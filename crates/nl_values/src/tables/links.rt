//! x

#[rattlefmt::skip]
macro_rules! links {
    ($next:ident $($rest:tt)*) => { $next! { $($rest)*
    // 0 addr-attrs
    { 0 "IFA_" 1 0 11; 4 "ADDRESS" Ip, 11 "LOCAL" Ip, 16 "LABEL" Text, 21 "BROADCAST" Ip,
    30 "ANYCAST" Ip, 37 "CACHEINFO" Fields(Struct(58)), 46 "MULTICAST" Ip,
    55 "FLAGS" Bits(Number::U32, Names(70)), 60 "RT_PRIORITY" U32, 71 "TARGET_NETNSID" I32,
    85 "PROTO" Value(Number::U8, Names(71)) }
    { 90 "IFAL_" 1 11 2; 95 "ADDRESS" Ipv6, 102 "LABEL" U32 } // 1 addrlabel-attrs
    // 2 af-spec-attrs
    { 107 "AF_" 2 13 44; 110 "INET" List(Set(54)), 114 "" Bytes, 114 "" Bytes, 114 "" Bytes,
    114 "" Bytes, 114 "" Bytes, 114 "" Bytes, 114 "" Bytes, 114 "INET6" List(Set(56)),
    119 "" Bytes, 119 "" Bytes, 119 "" Bytes, 119 "" Bytes, 119 "" Bytes, 119 "" Bytes,
    119 "" Bytes, 119 "" Bytes, 119 "" Bytes, 119 "" Bytes, 119 "" Bytes, 119 "" Bytes,
    119 "" Bytes, 119 "" Bytes, 119 "" Bytes, 119 "" Bytes, 119 "" Bytes, 119 "" Bytes,
    119 "" Bytes, 119 "" Bytes, 119 "" Bytes, 119 "" Bytes, 119 "" Bytes, 119 "" Bytes,
    119 "" Bytes, 119 "" Bytes, 119 "" Bytes, 119 "" Bytes, 119 "" Bytes, 119 "" Bytes,
    119 "" Bytes, 119 "" Bytes, 119 "" Bytes, 119 "" Bytes, 119 "MCTP" List(Set(113)) }
    // 3 bond-3ad-stats-attrs
    { 123 "BOND_3AD_STAT_" 0 57 10; 137 "LACPDU_RX" U64, 146 "LACPDU_TX" U64,
    155 "LACPDU_UNKNOWN_RX" U64, 172 "LACPDU_ILLEGAL_RX" U64, 189 "MARKER_RX" U64,
    198 "MARKER_TX" U64, 207 "MARKER_RESP_RX" U64, 221 "MARKER_RESP_TX" U64,
    235 "MARKER_UNKNOWN_RX" U64, 252 "PAD" Bytes }
    // 4 bond-ad-info-attrs
    { 255 "IFLA_BOND_AD_INFO_" 1 67 5; 273 "AGGREGATOR" U16, 283 "NUM_PORTS" U16,
    292 "ACTOR_KEY" U16, 301 "PARTNER_KEY" U16, 312 "PARTNER_MAC" Mac }
    // 5 bond-slave-attrs
    { 323 "IFLA_BOND_SLAVE_" 1 72 12; 339 "STATE" Value(Number::U8, Names(50)),
    344 "MII_STATUS" Value(Number::U8, Names(49)), 354 "LINK_FAILURE_COUNT" U32,
    372 "PERM_HWADDR" Mac, 383 "QUEUE_ID" U16, 391 "AD_AGGREGATOR_ID" U16,
    407 "AD_ACTOR_OPER_PORT_STATE" Bits(Number::U8, Names(52)),
    431 "AD_PARTNER_OPER_PORT_STATE" Bits(Number::U16, Names(52)), 457 "PRIO" I32,
    461 "ACTOR_PORT_PRIO" U16, 476 "AD_CHURN_ACTOR_STATE" Value(Number::U8, Names(59)),
    496 "AD_CHURN_PARTNER_STATE" Value(Number::U8, Names(59)) }
    { 518 "BOND_XSTATS_" 1 84 1; 530 "3AD" List(Set(3)) } // 6 bond-xstats-attrs
    // 7 bridge-af-spec-attrs
    { 533 "IFLA_BRIDGE_" 0 85 7; 545 "FLAGS" Bits(Number::U16, Names(62)),
    550 "MODE" Value(Number::U16, Names(61)), 554 "VLAN_INFO" Fields(Struct(53)),
    563 "VLAN_TUNNEL_INFO" List(Set(32)), 579 "MRP" List(Set(18)), 582 "CFM" List(Set(8)),
    585 "MST" List(Set(29)) }
    // 8 bridge-cfm-attrs
    { 588 "IFLA_BRIDGE_CFM_" 1 92 16; 604 "MEP_CREATE" List(Set(15)),
    614 "MEP_DELETE" List(Set(16)), 624 "MEP_CONFIG" List(Set(14)), 634 "CC_CONFIG" List(Set(10)),
    643 "CC_PEER_MEP_ADD" List(Set(11)), 658 "CC_PEER_MEP_REMOVE" List(Set(11)),
    676 "CC_RDI" List(Set(13)), 682 "CC_CCM_TX" List(Set(9)), 691 "MEP_CREATE_INFO" List(Set(15)),
    706 "MEP_CONFIG_INFO" List(Set(14)), 721 "CC_CONFIG_INFO" List(Set(10)),
    735 "CC_RDI_INFO" List(Set(13)), 746 "CC_CCM_TX_INFO" List(Set(9)),
    760 "CC_PEER_MEP_INFO" List(Set(11)), 776 "MEP_STATUS_INFO" List(Set(17)),
    791 "CC_PEER_STATUS_INFO" List(Set(12)) }
    // 9 bridge-cfm-cc-ccm-tx-attrs
    { 810 "IFLA_BRIDGE_CFM_CC_CCM_TX_" 1 108 8; 836 "INSTANCE" U32, 844 "DMAC" Mac,
    848 "SEQ_NO_UPDATE" U32, 861 "PERIOD" U32, 867 "IF_TLV" U32, 873 "IF_TLV_VALUE" U8,
    885 "PORT_TLV" U32, 893 "PORT_TLV_VALUE" U8 }
    // 10 bridge-cfm-cc-config-attrs
    { 907 "IFLA_BRIDGE_CFM_CC_CONFIG_" 1 116 4; 933 "INSTANCE" U32, 941 "ENABLE" U32,
    947 "EXP_INTERVAL" U32, 959 "EXP_MAID" Bytes }
    // 11 bridge-cfm-cc-peer-mep-attrs
    { 967 "IFLA_BRIDGE_CFM_CC_PEER_" 1 120 2; 991 "MEP_INSTANCE" U32, 1003 "MEPID" U32 }
    // 12 bridge-cfm-cc-peer-status-attrs
    { 1008 "IFLA_BRIDGE_CFM_CC_PEER_STATUS_" 1 122 9; 1039 "INSTANCE" U32, 1047 "PEER_MEPID" U32,
    1057 "CCM_DEFECT" U32, 1067 "RDI" U32, 1070 "PORT_TLV_VALUE" U8, 1084 "IF_TLV_VALUE" U8,
    1096 "SEEN" U32, 1100 "TLV_SEEN" U32, 1108 "SEQ_UNEXP_SEEN" U32 }
    // 13 bridge-cfm-cc-rdi-attrs
    { 1122 "IFLA_BRIDGE_CFM_CC_RDI_" 1 131 2; 1145 "INSTANCE" U32, 1153 "RDI" U32 }
    // 14 bridge-cfm-mep-config-attrs
    { 1156 "IFLA_BRIDGE_CFM_MEP_CONFIG_" 1 133 4; 1183 "INSTANCE" U32, 1191 "UNICAST_MAC" Mac,
    1202 "MDLEVEL" U32, 1209 "MEPID" U32 }
    // 15 bridge-cfm-mep-create-attrs
    { 1214 "IFLA_BRIDGE_CFM_MEP_CREATE_" 1 137 4; 1241 "INSTANCE" U32, 1249 "DOMAIN" U32,
    1255 "DIRECTION" U32, 1264 "IFINDEX" U32 }
    // 16 bridge-cfm-mep-delete-attrs
    { 1271 "IFLA_BRIDGE_CFM_MEP_DELETE_" 1 141 1; 1298 "INSTANCE" U32 }
    // 17 bridge-cfm-mep-status-attrs
    { 1306 "IFLA_BRIDGE_CFM_MEP_STATUS_" 1 142 4; 1333 "INSTANCE" U32,
    1341 "OPCODE_UNEXP_SEEN" U32, 1358 "VERSION_UNEXP_SEEN" U32, 1376 "RX_LEVEL_LOW_SEEN" U32 }
    // 18 bridge-mrp-attrs
    { 1393 "IFLA_BRIDGE_MRP_" 1 146 10; 1409 "INSTANCE" List(Set(22)),
    1417 "PORT_STATE" List(Set(24)), 1427 "PORT_ROLE" List(Set(23)),
    1436 "RING_STATE" List(Set(26)), 1446 "RING_ROLE" List(Set(25)),
    1455 "START_TEST" List(Set(28)), 1465 "INFO" List(Set(21)), 1469 "IN_ROLE" List(Set(19)),
    1476 "IN_STATE" List(Set(20)), 1484 "START_IN_TEST" List(Set(27)) }
    // 19 bridge-mrp-in-role-attrs
    { 1497 "IFLA_BRIDGE_MRP_IN_ROLE_" 1 156 4; 1521 "RING_ID" U32, 1528 "IN_ID" U16,
    1533 "ROLE" U32, 1537 "I_IFINDEX" U32 }
    // 20 bridge-mrp-in-state-attrs
    { 1546 "IFLA_BRIDGE_MRP_IN_STATE_" 1 160 2; 1571 "IN_ID" U32, 1576 "STATE" U32 }
    // 21 bridge-mrp-info-attrs
    { 1581 "IFLA_BRIDGE_MRP_INFO_" 1 162 14; 1602 "RING_ID" U32, 1609 "P_IFINDEX" U32,
    1618 "S_IFINDEX" U32, 1627 "PRIO" U16, 1631 "RING_STATE" U32, 1641 "RING_ROLE" U32,
    1650 "TEST_INTERVAL" U32, 1663 "TEST_MAX_MISS" U32, 1676 "TEST_MONITOR" U32,
    1688 "I_IFINDEX" U32, 1697 "IN_STATE" U32, 1705 "IN_ROLE" U32, 1712 "IN_TEST_INTERVAL" U32,
    1728 "IN_TEST_MAX_MISS" U32 }
    // 22 bridge-mrp-instance-attrs
    { 1744 "IFLA_BRIDGE_MRP_INSTANCE_" 1 176 4; 1769 "RING_ID" U32, 1776 "P_IFINDEX" U32,
    1785 "S_IFINDEX" U32, 1794 "PRIO" U16 }
    // 23 bridge-mrp-port-role-attrs
    { 1798 "IFLA_BRIDGE_MRP_PORT_ROLE_" 1 180 1; 1824 "ROLE" U32 }
    // 24 bridge-mrp-port-state-attrs
    { 1828 "IFLA_BRIDGE_MRP_PORT_STATE_" 1 181 1; 1855 "STATE" U32 }
    // 25 bridge-mrp-ring-role-attrs
    { 1860 "IFLA_BRIDGE_MRP_RING_ROLE_" 1 182 2; 1886 "RING_ID" U32, 1893 "ROLE" U32 }
    // 26 bridge-mrp-ring-state-attrs
    { 1897 "IFLA_BRIDGE_MRP_RING_STATE_" 1 184 2; 1924 "RING_ID" U32, 1931 "STATE" U32 }
    // 27 bridge-mrp-start-in-test-attrs
    { 1936 "IFLA_BRIDGE_MRP_START_IN_TEST_" 1 186 4; 1966 "IN_ID" U32, 1971 "INTERVAL" U32,
    1979 "MAX_MISS" U32, 1987 "PERIOD" U32 }
    // 28 bridge-mrp-start-test-attrs
    { 1993 "IFLA_BRIDGE_MRP_START_TEST_" 1 190 5; 2020 "RING_ID" U32, 2027 "INTERVAL" U32,
    2035 "MAX_MISS" U32, 2043 "PERIOD" U32, 2049 "MONITOR" U32 }
    { 2056 "IFLA_BRIDGE_MST_" 1 195 1; 2072 "ENTRY" List(Set(30)) } // 29 bridge-mst-attrs
    // 30 bridge-mst-entry-attrs
    { 2077 "IFLA_BRIDGE_MST_ENTRY_" 1 196 2; 2099 "MSTI" U16,
    2103 "STATE" Value(Number::U8, Names(60)) }
    // 31 bridge-querier-attrs
    { 2108 "BRIDGE_QUERIER_" 1 198 7; 2123 "IP_ADDRESS" Ipv4, 2133 "IP_PORT" U32,
    2140 "IP_OTHER_TIMER" U64, 2154 "PAD" Bytes, 2157 "IPV6_ADDRESS" Ipv6, 2169 "IPV6_PORT" U32,
    2178 "IPV6_OTHER_TIMER" U64 }
    // 32 bridge-vlan-tunnel-attrs
    { 2194 "IFLA_BRIDGE_VLAN_TUNNEL_" 1 205 3; 2218 "ID" U32, 2220 "VID" U16,
    2223 "FLAGS" Bits(Number::U16, Names(63)) }
    // 33 bridge-xstats-attrs
    { 2228 "BRIDGE_XSTATS_" 1 208 4; 2242 "VLAN" Fields(Struct(54)),
    2246 "MCAST" Fields(Struct(56)), 2251 "PAD" Bytes, 2254 "STP" Fields(Struct(55)) }
    // 34 can-ctrlmode-ext-attrs
    { 2257 "IFLA_CAN_CTRLMODE_" 1 212 1; 2275 "SUPPORTED" Bits(Number::U32, Names(40)) }
    // 35 can-tdc-attrs
    { 2284 "IFLA_CAN_TDC_" 1 213 9; 2297 "TDCV_MIN" U32, 2305 "TDCV_MAX" U32, 2313 "TDCO_MIN" U32,
    2321 "TDCO_MAX" U32, 2329 "TDCF_MIN" U32, 2337 "TDCF_MAX" U32, 2345 "TDCV" U32,
    2349 "TDCO" U32, 2353 "TDCF" U32 }
    // 36 dcb-app-attrs
    { 2357 "DCB_APP_ATTR_" 1 222 3; 2370 "IDTYPE" U8, 2376 "ID" U16, 2378 "PRIORITY" U8 }
    // 37 dcb-attrs
    { 2386 "DCB_ATTR_" 1 225 16; 2395 "IFNAME" Text, 2401 "STATE" U8, 2406 "PFC_STATE" U8,
    2415 "PFC_CFG" List(Set(47)), 2422 "NUM_TC" U8, 2428 "PG_CFG" List(Set(48)),
    2434 "SET_ALL" U8, 2441 "PERM_HWADDR" Mac, 2452 "CAP" List(Set(39)),
    2455 "NUMTCS" List(Set(46)), 2461 "BCN" List(Set(38)), 2464 "APP" List(Set(36)),
    2467 "IEEE" List(Set(45)), 2471 "DCBX" U8, 2475 "FEATCFG" List(Set(43)),
    2482 "CEE" List(Set(41)) }
    // 38 dcb-bcn-attrs
    { 2485 "DCB_BCN_ATTR_" 1 241 25; 2498 "RP_0" U8, 2502 "RP_1" U8, 2506 "RP_2" U8,
    2510 "RP_3" U8, 2514 "RP_4" U8, 2518 "RP_5" U8, 2522 "RP_6" U8, 2526 "RP_7" U8,
    2530 "RP_ALL" Flag, 2536 "BCNA_0" U32, 2542 "BCNA_1" U32, 2548 "ALPHA" U32, 2553 "BETA" U32,
    2557 "GD" U32, 2559 "GI" U32, 2561 "TMAX" U32, 2565 "TD" U32, 2567 "RMIN" U32, 2571 "W" U32,
    2572 "RD" U32, 2574 "RU" U32, 2576 "WRTT" U32, 2580 "RI" U32, 2582 "C" U32, 2583 "ALL" Flag }
    // 39 dcb-cap-attrs
    { 2586 "DCB_CAP_ATTR_" 1 266 9; 2599 "ALL" Flag, 2602 "PG" U8, 2604 "PFC" U8, 2607 "UP2TC" U8,
    2612 "PG_TCS" U8, 2618 "PFC_TCS" U8, 2625 "GSP" U8, 2628 "BCN" U8, 2631 "DCBX" U8 }
    { 2635 "DCB_ATTR_CEE_" 1 275 1; 2648 "APP" Fields(Struct(163)) } // 40 dcb-cee-app-attrs
    // 41 dcb-cee-attrs
    { 2651 "DCB_ATTR_CEE_" 1 276 8; 2664 "PEER_PG" Fields(Struct(165)),
    2671 "PEER_PFC" Fields(Struct(166)), 2679 "PEER_APP_TABLE" List(Set(42)),
    2693 "TX_PG" List(Set(48)), 2698 "RX_PG" List(Set(48)), 2703 "PFC" List(Set(47)),
    2706 "APP_TABLE" List(Set(40)), 2715 "FEAT" List(Set(43)) }
    // 42 dcb-cee-peer-app-attrs
    { 2719 "DCB_ATTR_CEE_PEER_" 1 284 2; 2737 "APP_INFO" Fields(Struct(164)),
    2745 "APP" Fields(Struct(163)) }
    // 43 dcb-featcfg-attrs
    { 2748 "DCB_FEATCFG_ATTR_" 1 286 4; 2765 "ALL" Flag, 2768 "PG" U8, 2770 "PFC" U8,
    2773 "APP" U8 }
    // 44 dcb-ieee-app-attrs
    { 2776 "DCB_ATTR_" 1 290 2; 2785 "IEEE_APP" Fields(Struct(163)),
    2793 "DCB_APP" Fields(Struct(163)) }
    // 45 dcb-ieee-attrs
    { 2800 "DCB_ATTR_" 1 292 12; 2809 "IEEE_ETS" Fields(Struct(157)),
    2817 "IEEE_PFC" Fields(Struct(158)), 2825 "IEEE_APP_TABLE" List(Set(44)),
    2839 "IEEE_PEER_ETS" Fields(Struct(157)), 2852 "IEEE_PEER_PFC" Fields(Struct(158)),
    2865 "IEEE_PEER_APP" List(Set(44)), 2878 "IEEE_MAXRATE" Fields(Struct(159)),
    2890 "IEEE_QCN" Fields(Struct(160)), 2898 "IEEE_QCN_STATS" Fields(Struct(161)),
    2912 "DCB_BUFFER" Fields(Struct(162)), 2922 "DCB_APP_TRUST_TABLE" List(Set(44)),
    2941 "DCB_REWR_TABLE" List(Set(44)) }
    // 46 dcb-numtcs-attrs
    { 2955 "DCB_NUMTCS_ATTR_" 1 304 3; 2971 "ALL" Flag, 2974 "PG" U8, 2976 "PFC" U8 }
    // 47 dcb-pfc-attrs
    { 2979 "DCB_PFC_UP_ATTR_" 1 307 9; 2995 "0" U8, 2996 "1" U8, 2997 "2" U8, 2998 "3" U8,
    2999 "4" U8, 3000 "5" U8, 3001 "6" U8, 3002 "7" U8, 3003 "ALL" Flag }
    // 48 dcb-pg-attrs
    { 3006 "DCB_PG_ATTR_" 1 316 20; 3018 "TC_0" List(Set(49)), 3022 "TC_1" List(Set(49)),
    3026 "TC_2" List(Set(49)), 3030 "TC_3" List(Set(49)), 3034 "TC_4" List(Set(49)),
    3038 "TC_5" List(Set(49)), 3042 "TC_6" List(Set(49)), 3046 "TC_7" List(Set(49)),
    3050 "TC_MAX" Bytes, 3056 "TC_ALL" List(Set(49)), 3062 "BW_ID_0" U8, 3069 "BW_ID_1" U8,
    3076 "BW_ID_2" U8, 3083 "BW_ID_3" U8, 3090 "BW_ID_4" U8, 3097 "BW_ID_5" U8, 3104 "BW_ID_6" U8,
    3111 "BW_ID_7" U8, 3118 "BW_ID_MAX" Bytes, 3127 "BW_ID_ALL" Flag }
    // 49 dcb-tc-attrs
    { 3136 "DCB_TC_ATTR_PARAM_" 1 336 5; 3154 "PGID" U8, 3158 "UP_MAPPING" U8,
    3168 "STRICT_PRIO" U8, 3179 "BW_PCT" U8, 3185 "ALL" Flag }
    // 50 devlink-port-attrs
    { 3188 "DEVLINK_ATTR_" 1 341 3; 3201 "BUS_NAME" Text, 3209 "DEV_NAME" Text,
    3217 "PORT_INDEX" U32 }
    // 51 extack-attrs
    { 3227 "NLMSGERR_ATTR_" 1 344 6; 3241 "MSG" Text, 3244 "OFFS" U32, 3248 "COOKIE" Bytes,
    3254 "POLICY" List(Set(134)), 3260 "MISS_TYPE" U32, 3269 "MISS_NEST" U32 }
    // 52 fib-rule-attrs
    { 3278 "FRA_" 1 350 25; 3282 "DST" Ip, 3285 "SRC" Ip, 3288 "IIFNAME" Text, 3295 "GOTO" U32,
    3299 "UNUSED2" Bytes, 3306 "PRIORITY" U32, 3314 "UNUSED3" Bytes, 3321 "UNUSED4" Bytes,
    3328 "UNUSED5" Bytes, 3335 "FWMARK" U32, 3341 "FLOW" U32, 3345 "TUN_ID" NETWORK_U64,
    3351 "SUPPRESS_IFGROUP" I32, 3367 "SUPPRESS_PREFIXLEN" I32,
    3385 "TABLE" Value(Number::U32, Names(78)), 3390 "FWMASK" U32, 3396 "OIFNAME" Text,
    3403 "PAD" Bytes, 3406 "L3MDEV" U8, 3412 "UID_RANGE" Fields(Struct(66)),
    3421 "PROTOCOL" Value(Number::U8, Names(76)), 3429 "IP_PROTO" U8,
    3437 "SPORT_RANGE" Fields(Struct(67)), 3448 "DPORT_RANGE" Fields(Struct(67)), 3459 "DSCP" U8 }
    // 53 hw-s-info-one
    { 3463 "IFLA_OFFLOAD_XSTATS_HW_S_INFO_" 1 375 2; 3493 "REQUEST" U8, 3500 "USED" U8 }
    { 3504 "IFLA_INET_" 1 377 1; 3514 "CONF" Counters(Number::I32, Names(20)) } // 54 ifla-attrs
    { 3518 "IFLA_VLAN_QOS_" 1 378 1; 3532 "MAPPING" Fields(Struct(43)) } // 55 ifla-vlan-qos
    // 56 ifla6-attrs
    { 3539 "IFLA_INET6_" 1 379 9; 3550 "FLAGS" U32, 3555 "CONF" Counters(Number::I32, Names(21)),
    3559 "STATS" Counters(Number::U64, Names(22)), 3564 "MCAST" Bytes,
    3569 "CACHEINFO" Fields(Struct(29)), 3578 "ICMP6STATS" Counters(Number::U64, Names(23)),
    3588 "TOKEN" Ipv6, 3593 "ADDR_GEN_MODE" Value(Number::U8, Names(19)), 3606 "RA_MTU" U32 }
    // 57 ipmr-cache-report-attrs
    { 3612 "IPMRA_CREPORT_" 1 388 6; 3626 "MSGTYPE" U8, 3633 "VIF_ID" U32, 3639 "SRC_ADDR" Ip,
    3647 "DST_ADDR" Ip, 3655 "PKT" Bytes, 3658 "TABLE" U32 }
    // 58 ipmr-table-list-attrs
    { 3663 "IPMRA_TABLE_" 1 394 7; 3675 "ID" U32, 3677 "CACHE_RES_QUEUE_LEN" U32,
    3696 "MROUTE_REG_VIF_NUM" I32, 3714 "MROUTE_DO_ASSERT" U8, 3730 "MROUTE_DO_PIM" U8,
    3743 "VIFS" List(Set(60)), 3747 "MROUTE_DO_WRVIFWHOLE" U8 }
    // 59 ipmr-vif-attrs
    { 3767 "IPMRA_VIFA_" 1 401 10; 3778 "IFINDEX" U32, 3785 "VIF_ID" U32, 3791 "FLAGS" U16,
    3796 "BYTES_IN" U64, 3804 "BYTES_OUT" U64, 3813 "PACKETS_IN" U64, 3823 "PACKETS_OUT" U64,
    3834 "LOCAL_ADDR" Ipv4, 3844 "REMOTE_ADDR" Ipv4, 3855 "PAD" Bytes }
    { 3858 "IPMRA_" 1 411 1; 3864 "VIF" List(Set(59)) } // 60 ipmr-vif-list-attrs
    // 61 link-attrs
    { 3867 "IFLA_" 1 412 69; 3872 "ADDRESS" Mac, 3879 "BROADCAST" Mac, 3888 "IFNAME" Text,
    3894 "MTU" U32, 3897 "LINK" U32, 3901 "QDISC" Text, 3906 "STATS" Fields(Struct(24)),
    3911 "COST" Bytes, 3915 "PRIORITY" Bytes, 3923 "MASTER" U32, 3929 "WIRELESS" Bytes,
    3937 "PROTINFO" Chosen(Choice(8), Selector::Family), 3945 "TXQLEN" U32,
    3951 "MAP" Fields(Struct(27)), 3954 "WEIGHT" U32,
    3960 "OPERSTATE" Value(Number::U8, Names(5)), 3969 "LINKMODE" Value(Number::U8, Names(6)),
    3977 "LINKINFO" List(Set(66)), 3985 "NET_NS_PID" U32, 3995 "IFALIAS" Text, 4002 "NUM_VF" U32,
    4008 "VFINFO_LIST" List(Set(158)), 4019 "STATS64" Fields(Struct(25)),
    4026 "VF_PORTS" List(Set(154)), 4034 "PORT_SELF" List(Set(141)),
    4043 "AF_SPEC" Chosen(Choice(7), Selector::Family), 4050 "GROUP" U32, 4055 "NET_NS_FD" U32,
    4064 "EXT_MASK" Bits(Number::U32, Names(3)), 4072 "PROMISCUITY" U32, 4083 "NUM_TX_QUEUES" U32,
    4096 "NUM_RX_QUEUES" U32, 4109 "CARRIER" U8, 4116 "PHYS_PORT_ID" Bytes,
    4128 "CARRIER_CHANGES" U32, 4143 "PHYS_SWITCH_ID" Bytes, 4157 "LINK_NETNSID" I32,
    4169 "PHYS_PORT_NAME" Text, 4183 "PROTO_DOWN" U8, 4193 "GSO_MAX_SEGS" U32,
    4205 "GSO_MAX_SIZE" U32, 4217 "PAD" Bytes, 4220 "XDP" List(Set(168)),
    4223 "EVENT" Value(Number::U32, Names(8)), 4228 "NEW_NETNSID" I32, 4239 "TARGET_NETNSID" I32,
    4253 "CARRIER_UP_COUNT" U32, 4269 "CARRIER_DOWN_COUNT" U32, 4287 "NEW_IFINDEX" I32,
    4298 "MIN_MTU" U32, 4305 "MAX_MTU" U32, 4312 "PROP_LIST" List(Set(143)),
    4321 "ALT_IFNAME" Text, 4331 "PERM_ADDRESS" Mac, 4343 "PROTO_DOWN_REASON" List(Set(144)),
    4360 "PARENT_DEV_NAME" Text, 4375 "PARENT_DEV_BUS_NAME" Text, 4394 "GRO_MAX_SIZE" U32,
    4406 "TSO_MAX_SIZE" U32, 4418 "TSO_MAX_SEGS" U32, 4430 "ALLMULTI" U32,
    4438 "DEVLINK_PORT" List(Set(50)), 4450 "GSO_IPV4_MAX_SIZE" U32, 4467 "GRO_IPV4_MAX_SIZE" U32,
    4484 "DPLL_PIN" List(Set(62)), 4492 "MAX_PACING_OFFLOAD_HORIZON" Unsigned,
    4518 "NETNS_IMMUTABLE" U8, 4533 "HEADROOM" U16, 4541 "TAILROOM" U16 }
    { 4549 "DPLL_A_" 1 481 1; 4556 "PIN_ID" U32 } // 62 link-dpll-pin-attrs
    // 63 link-offload-xstats
    { 4562 "IFLA_OFFLOAD_XSTATS_" 1 482 3; 4582 "CPU_HIT" Bytes, 4589 "HW_S_INFO" List(Set(170)),
    4598 "L3_STATS" Fields(Struct(26)) }
    // 64 link-xstats-attrs
    { 4606 "LINK_XSTATS_TYPE_" 1 485 2; 4623 "BRIDGE" List(Set(33)), 4629 "BOND" List(Set(6)) }
    // 65 linkinfo-amt-attrs
    { 4633 "IFLA_AMT_" 1 487 8; 4642 "MODE" Value(Number::U32, Names(38)),
    4646 "RELAY_PORT" NETWORK_U16, 4656 "GATEWAY_PORT" NETWORK_U16, 4668 "LINK" U32,
    4672 "LOCAL_IP" Ipv4, 4680 "REMOTE_IP" Ipv4, 4689 "DISCOVERY_IP" Ipv4,
    4701 "MAX_TUNNELS" U32 }
    // 66 linkinfo-attrs
    { 4712 "IFLA_INFO_" 1 495 5; 4722 "KIND" Text,
    4726 "DATA" Chosen(Choice(0), Selector::Beside(1)),
    4730 "XSTATS" Chosen(Choice(5), Selector::Beside(1)), 4736 "SLAVE_KIND" Text,
    4746 "SLAVE_DATA" Chosen(Choice(1), Selector::Beside(4)) }
    // 67 linkinfo-bareudp-attrs
    { 4756 "IFLA_BAREUDP_" 1 500 4; 4769 "PORT" NETWORK_U16, 4773 "ETHERTYPE" NETWORK_U16,
    4782 "SRCPORT_MIN" U16, 4793 "MULTIPROTO_MODE" Flag }
    { 4808 "IFLA_BATADV_" 1 504 1; 4820 "ALGO_NAME" Text } // 68 linkinfo-batadv-attrs
    // 69 linkinfo-bond-attrs
    { 4829 "IFLA_BOND_" 1 505 32; 4839 "MODE" Value(Number::U8, Names(48)),
    4843 "ACTIVE_SLAVE" U32, 4855 "MIIMON" U32, 4861 "UPDELAY" U32, 4868 "DOWNDELAY" U32,
    4877 "USE_CARRIER" U8, 4888 "ARP_INTERVAL" U32, 4900 "ARP_IP_TARGET" List(Set(171)),
    4913 "ARP_VALIDATE" Value(Number::U32, Names(53)),
    4925 "ARP_ALL_TARGETS" Value(Number::U32, Names(54)), 4940 "PRIMARY" U32,
    4947 "PRIMARY_RESELECT" Value(Number::U8, Names(55)),
    4963 "FAIL_OVER_MAC" Value(Number::U8, Names(56)),
    4976 "XMIT_HASH_POLICY" Value(Number::U8, Names(51)), 4992 "RESEND_IGMP" U32,
    5003 "NUM_PEER_NOTIF" U8, 5017 "ALL_SLAVES_ACTIVE" U8, 5034 "MIN_LINKS" U32,
    5043 "LP_INTERVAL" U32, 5054 "PACKETS_PER_SLAVE" U32,
    5071 "AD_LACP_RATE" Value(Number::U8, Names(57)),
    5083 "AD_SELECT" Value(Number::U8, Names(58)), 5092 "AD_INFO" List(Set(4)),
    5099 "AD_ACTOR_SYS_PRIO" U16, 5116 "AD_USER_PORT_KEY" U16, 5132 "AD_ACTOR_SYSTEM" Mac,
    5147 "TLB_DYNAMIC_LB" U8, 5161 "PEER_NOTIF_DELAY" U32, 5177 "AD_LACP_ACTIVE" U8,
    5191 "MISSED_MAX" U8, 5201 "NS_IP6_TARGET" List(Set(172)), 5214 "COUPLED_CONTROL" U8 }
    // 70 linkinfo-bridge-attrs
    { 5229 "IFLA_BR_" 1 537 49; 5237 "FORWARD_DELAY" U32, 5250 "HELLO_TIME" U32,
    5260 "MAX_AGE" U32, 5267 "AGEING_TIME" U32, 5278 "STP_STATE" U32, 5287 "PRIORITY" U16,
    5295 "VLAN_FILTERING" U8, 5309 "VLAN_PROTOCOL" Value(Number::NetworkU16, Names(9)),
    5322 "GROUP_FWD_MASK" U16, 5336 "ROOT_ID" Fields(Struct(28)),
    5343 "BRIDGE_ID" Fields(Struct(28)), 5352 "ROOT_PORT" U16, 5361 "ROOT_PATH_COST" U32,
    5375 "TOPOLOGY_CHANGE" U8, 5390 "TOPOLOGY_CHANGE_DETECTED" U8, 5414 "HELLO_TIMER" U64,
    5425 "TCN_TIMER" U64, 5434 "TOPOLOGY_CHANGE_TIMER" U64, 5455 "GC_TIMER" U64,
    5463 "GROUP_ADDR" Mac, 5473 "FDB_FLUSH" Bytes,
    5482 "MCAST_ROUTER" Value(Number::U8, Names(65)), 5494 "MCAST_SNOOPING" U8,
    5508 "MCAST_QUERY_USE_IFADDR" U8, 5530 "MCAST_QUERIER" U8, 5543 "MCAST_HASH_ELASTICITY" U32,
    5564 "MCAST_HASH_MAX" U32, 5578 "MCAST_LAST_MEMBER_CNT" U32,
    5599 "MCAST_STARTUP_QUERY_CNT" U32, 5622 "MCAST_LAST_MEMBER_INTVL" U64,
    5645 "MCAST_MEMBERSHIP_INTVL" U64, 5667 "MCAST_QUERIER_INTVL" U64,
    5686 "MCAST_QUERY_INTVL" U64, 5703 "MCAST_QUERY_RESPONSE_INTVL" U64,
    5729 "MCAST_STARTUP_QUERY_INTVL" U64, 5754 "NF_CALL_IPTABLES" U8, 5770 "NF_CALL_IP6TABLES" U8,
    5787 "NF_CALL_ARPTABLES" U8, 5804 "VLAN_DEFAULT_PVID" U16, 5821 "PAD" Bytes,
    5824 "VLAN_STATS_ENABLED" U8, 5842 "MCAST_STATS_ENABLED" U8, 5861 "MCAST_IGMP_VERSION" U8,
    5879 "MCAST_MLD_VERSION" U8, 5896 "VLAN_STATS_PER_PORT" U8,
    5915 "MULTI_BOOLOPT" Fields(Struct(52)), 5928 "MCAST_QUERIER_STATE" List(Set(31)),
    5947 "FDB_N_LEARNED" U32, 5960 "FDB_MAX_LEARNED" U32 }
    // 71 linkinfo-brport-attrs
    { 5975 "IFLA_BRPORT_" 1 586 44; 5987 "STATE" Value(Number::U8, Names(60)),
    5992 "PRIORITY" U16, 6000 "COST" U32, 6004 "MODE" U8, 6008 "GUARD" U8, 6013 "PROTECT" U8,
    6020 "FAST_LEAVE" U8, 6030 "LEARNING" U8, 6038 "UNICAST_FLOOD" U8, 6051 "PROXYARP" U8,
    6059 "LEARNING_SYNC" U8, 6072 "PROXYARP_WIFI" U8, 6085 "ROOT_ID" Fields(Struct(28)),
    6092 "BRIDGE_ID" Fields(Struct(28)), 6101 "DESIGNATED_PORT" U16, 6116 "DESIGNATED_COST" U16,
    6131 "ID" U16, 6133 "NO" U16, 6135 "TOPOLOGY_CHANGE_ACK" U8, 6154 "CONFIG_PENDING" U8,
    6168 "MESSAGE_AGE_TIMER" U64, 6185 "FORWARD_DELAY_TIMER" U64, 6204 "HOLD_TIMER" U64,
    6214 "FLUSH" Flag, 6219 "MULTICAST_ROUTER" Value(Number::U8, Names(65)), 6235 "PAD" Bytes,
    6238 "MCAST_FLOOD" U8, 6249 "MCAST_TO_UCAST" U8, 6263 "VLAN_TUNNEL" U8, 6274 "BCAST_FLOOD" U8,
    6285 "GROUP_FWD_MASK" U16, 6299 "NEIGH_SUPPRESS" U8, 6313 "ISOLATED" U8,
    6321 "BACKUP_PORT" U32, 6332 "MRP_RING_OPEN" U8, 6345 "MRP_IN_OPEN" U8,
    6356 "MCAST_EHT_HOSTS_LIMIT" U32, 6377 "MCAST_EHT_HOSTS_CNT" U32, 6396 "LOCKED" U8,
    6402 "MAB" U8, 6405 "MCAST_N_GROUPS" U32, 6419 "MCAST_MAX_GROUPS" U32,
    6435 "NEIGH_VLAN_SUPPRESS" U8, 6454 "BACKUP_NHID" U32 }
    // 72 linkinfo-caif-attrs
    { 6465 "IFLA_CAIF_" 1 630 3; 6475 "IPV4_CONNID" U32, 6486 "IPV6_CONNID" U32,
    6497 "LOOPBACK" U8 }
    // 73 linkinfo-can-attrs
    { 6505 "IFLA_CAN_" 1 633 17; 6514 "BITTIMING" Fields(Struct(46)),
    6523 "BITTIMING_CONST" Fields(Struct(47)), 6538 "CLOCK" Fields(Struct(48)),
    6543 "STATE" Value(Number::U32, Names(39)), 6548 "CTRLMODE" Fields(Struct(49)),
    6556 "RESTART_MS" U32, 6566 "RESTART" U32, 6573 "BERR_COUNTER" Fields(Struct(50)),
    6585 "DATA_BITTIMING" Fields(Struct(46)), 6599 "DATA_BITTIMING_CONST" Fields(Struct(47)),
    6619 "TERMINATION" U16, 6630 "TERMINATION_CONST" Series(Number::U16),
    6647 "BITRATE_CONST" Series(Number::U32), 6660 "DATA_BITRATE_CONST" Series(Number::U32),
    6678 "BITRATE_MAX" U32, 6689 "TDC" List(Set(35)), 6692 "CTRLMODE_EXT" List(Set(34)) }
    { 6704 "IFLA_DSA_" 1 650 1; 6713 "CONDUIT" U32 } // 74 linkinfo-dsa-attrs
    // 75 linkinfo-geneve-attrs
    { 6720 "IFLA_GENEVE_" 1 651 14; 6732 "ID" U32, 6734 "REMOTE" Ip, 6740 "TTL" U8, 6743 "TOS" U8,
    6746 "PORT" NETWORK_U16, 6750 "COLLECT_METADATA" Flag, 6766 "REMOTE6" Ipv6,
    6773 "UDP_CSUM" U8, 6781 "UDP_ZERO_CSUM6_TX" U8, 6798 "UDP_ZERO_CSUM6_RX" U8,
    6815 "LABEL" NETWORK_U32, 6820 "TTL_INHERIT" U8, 6831 "DF" Value(Number::U8, Names(33)),
    6833 "INNER_PROTO_INHERIT" Flag }
    // 76 linkinfo-gre-attrs
    { 6852 "IFLA_GRE_" 1 665 24; 6861 "LINK" U32,
    6865 "IFLAGS" Bits(Number::NetworkU16, Names(45)),
    6871 "OFLAGS" Bits(Number::NetworkU16, Names(45)), 6877 "IKEY" NETWORK_U32,
    6881 "OKEY" NETWORK_U32, 6885 "LOCAL" Ip, 6890 "REMOTE" Ip, 6896 "TTL" U8, 6899 "TOS" U8,
    6902 "PMTUDISC" U8, 6910 "ENCAP_LIMIT" U8, 6921 "FLOWINFO" NETWORK_U32, 6929 "FLAGS" U32,
    6934 "ENCAP_TYPE" Value(Number::U16, Names(43)),
    6944 "ENCAP_FLAGS" Bits(Number::U16, Names(44)), 6955 "ENCAP_SPORT" NETWORK_U16,
    6966 "ENCAP_DPORT" NETWORK_U16, 6977 "COLLECT_METADATA" Flag, 6993 "IGNORE_DF" U8,
    7002 "FWMARK" U32, 7008 "ERSPAN_INDEX" U32, 7020 "ERSPAN_VER" U8, 7030 "ERSPAN_DIR" U8,
    7040 "ERSPAN_HWID" U16 }
    // 77 linkinfo-gtp-attrs
    { 7051 "IFLA_GTP_" 1 689 8; 7060 "FD0" U32, 7063 "FD1" U32, 7066 "PDP_HASHSIZE" U32,
    7078 "ROLE" Value(Number::U32, Names(34)), 7082 "CREATE_SOCKETS" U8, 7096 "RESTART_COUNT" U8,
    7109 "LOCAL" Ipv4, 7114 "LOCAL6" Ipv6 }
    // 78 linkinfo-hsr-attrs
    { 7120 "IFLA_HSR_" 1 697 8; 7129 "SLAVE1" U32, 7135 "SLAVE2" U32, 7141 "MULTICAST_SPEC" U8,
    7155 "SUPERVISION_ADDR" Mac, 7171 "SEQ_NR" U16, 7177 "VERSION" U8,
    7184 "PROTOCOL" Value(Number::U8, Names(36)), 7192 "INTERLINK" U32 }
    // 79 linkinfo-ip6tnl-attrs
    { 7201 "IFLA_IPTUN_" 1 705 20; 7212 "LINK" U32, 7216 "LOCAL" Ipv6, 7221 "REMOTE" Ipv6,
    7227 "TTL" U8, 7230 "TOS" U8, 7233 "ENCAP_LIMIT" U8, 7244 "FLOWINFO" NETWORK_U32,
    7252 "FLAGS" Bits(Number::U32, Names(46)), 7257 "PROTO" U8, 7262 "PMTUDISC" U8,
    7270 "6RD_PREFIX" Ipv6, 7280 "6RD_RELAY_PREFIX" Ip, 7296 "6RD_PREFIXLEN" U16,
    7309 "6RD_RELAY_PREFIXLEN" U16, 7328 "ENCAP_TYPE" Value(Number::U16, Names(43)),
    7338 "ENCAP_FLAGS" Bits(Number::U16, Names(44)), 7349 "ENCAP_SPORT" NETWORK_U16,
    7360 "ENCAP_DPORT" NETWORK_U16, 7371 "COLLECT_METADATA" Flag, 7387 "FWMARK" U32 }
    // 80 linkinfo-ipoib-attrs
    { 7393 "IFLA_IPOIB_" 1 725 3; 7404 "PKEY" U16, 7408 "MODE" Value(Number::U16, Names(35)),
    7412 "UMCAST" U16 }
    // 81 linkinfo-iptun-attrs
    { 7418 "IFLA_IPTUN_" 1 728 20; 7429 "LINK" U32, 7433 "LOCAL" Ip, 7438 "REMOTE" Ip,
    7444 "TTL" U8, 7447 "TOS" U8, 7450 "ENCAP_LIMIT" U8, 7461 "FLOWINFO" NETWORK_U32,
    7469 "FLAGS" Bits(Number::NetworkU16, Names(47)), 7474 "PROTO" U8, 7479 "PMTUDISC" U8,
    7487 "6RD_PREFIX" Ipv6, 7497 "6RD_RELAY_PREFIX" Ip, 7513 "6RD_PREFIXLEN" U16,
    7526 "6RD_RELAY_PREFIXLEN" U16, 7545 "ENCAP_TYPE" Value(Number::U16, Names(43)),
    7555 "ENCAP_FLAGS" Bits(Number::U16, Names(44)), 7566 "ENCAP_SPORT" NETWORK_U16,
    7577 "ENCAP_DPORT" NETWORK_U16, 7588 "COLLECT_METADATA" Flag, 7604 "FWMARK" U32 }
    // 82 linkinfo-ipvlan-attrs
    { 7610 "IFLA_IPVLAN_" 1 748 2; 7622 "MODE" Value(Number::U16, Names(27)),
    7626 "FLAGS" Bits(Number::U16, Names(28)) }
    // 83 linkinfo-macsec-attrs
    { 7631 "IFLA_MACSEC_" 1 750 15; 7643 "SCI" NETWORK_U64, 7646 "PORT" NETWORK_U16,
    7650 "ICV_LEN" U8, 7657 "CIPHER_SUITE" U64, 7669 "WINDOW" U32, 7675 "ENCODING_SA" U8,
    7686 "ENCRYPT" U8, 7693 "PROTECT" U8, 7700 "INC_SCI" U8, 7707 "ES" U8, 7709 "SCB" U8,
    7712 "REPLAY_PROTECT" U8, 7726 "VALIDATION" Value(Number::U8, Names(29)), 7736 "PAD" Bytes,
    7739 "OFFLOAD" Value(Number::U8, Names(30)) }
    // 84 linkinfo-macvlan-attrs
    { 7746 "IFLA_MACVLAN_" 1 765 9; 7759 "MODE" Value(Number::U32, Names(24)),
    7763 "FLAGS" Bits(Number::U16, Names(26)), 7768 "MACADDR_MODE" Value(Number::U32, Names(25)),
    7780 "MACADDR" Mac, 7787 "MACADDR_DATA" List(Set(84)), 7799 "MACADDR_COUNT" U32,
    7812 "BC_QUEUE_LEN" U32, 7824 "BC_QUEUE_LEN_USED" U32, 7841 "BC_CUTOFF" I32 }
    // 85 linkinfo-netkit-attrs
    { 7850 "IFLA_NETKIT_" 1 774 7; 7862 "PEER_INFO" Headed(Struct(5), Set(61)), 7871 "PRIMARY" U8,
    7878 "POLICY" Value(Number::U32, Names(12)), 7884 "PEER_POLICY" Value(Number::U32, Names(12)),
    7895 "MODE" Value(Number::U32, Names(13)), 7899 "SCRUB" Value(Number::U32, Names(14)),
    7904 "PEER_SCRUB" Value(Number::U32, Names(14)) }
    { 7914 "IFLA_PPP_" 1 781 1; 7923 "DEV_FD" I32 } // 86 linkinfo-ppp-attrs
    // 87 linkinfo-rmnet-attrs
    { 7929 "IFLA_RMNET_" 1 782 2; 7940 "MUX_ID" U16, 7946 "FLAGS" Fields(Struct(45)) }
    // 88 linkinfo-tun-attrs
    { 7951 "IFLA_TUN_" 1 784 9; 7960 "OWNER" U32, 7965 "GROUP" U32,
    7970 "TYPE" Value(Number::U8, Names(42)), 7974 "PI" U8, 7976 "VNET_HDR" U8, 7984 "PERSIST" U8,
    7991 "MULTI_QUEUE" U8, 8002 "NUM_QUEUES" U32, 8012 "NUM_DISABLED_QUEUES" U32 }
    // 89 linkinfo-veth-attrs
    { 8031 "VETH_INFO_" 1 793 1; 8041 "PEER" Headed(Struct(5), Set(61)) }
    // 90 linkinfo-vlan-attrs
    { 8045 "IFLA_VLAN_" 1 794 5; 8055 "ID" U16, 8057 "FLAGS" Fields(Struct(42)),
    8062 "EGRESS_QOS" List(Set(55)), 8072 "INGRESS_QOS" List(Set(55)),
    8083 "PROTOCOL" Value(Number::NetworkU16, Names(9)) }
    { 8091 "IFLA_VRF_" 1 799 1; 8100 "TABLE" U32 } // 91 linkinfo-vrf-attrs
    { 8105 "IFLA_VRF_PORT_" 1 800 1; 8119 "TABLE" U32 } // 92 linkinfo-vrf-member-attrs
    // 93 linkinfo-vti-attrs
    { 8124 "IFLA_VTI_" 1 801 6; 8133 "LINK" U32, 8137 "IKEY" NETWORK_U32, 8141 "OKEY" NETWORK_U32,
    8145 "LOCAL" Ip, 8150 "REMOTE" Ip, 8156 "FWMARK" U32 }
    // 94 linkinfo-vxcan-attrs
    { 8162 "VXCAN_INFO_" 1 807 1; 8173 "PEER" Headed(Struct(5), Set(61)) }
    // 95 linkinfo-vxlan-attrs
    { 8177 "IFLA_VXLAN_" 1 808 32; 8188 "ID" U32, 8190 "GROUP" Ipv4, 8195 "LINK" U32,
    8199 "LOCAL" Ipv4, 8204 "TTL" U8, 8207 "TOS" U8, 8210 "LEARNING" U8, 8218 "AGEING" U32,
    8224 "LIMIT" U32, 8229 "PORT_RANGE" Fields(Struct(44)), 8239 "PROXY" U8, 8244 "RSC" U8,
    8247 "L2MISS" U8, 8253 "L3MISS" U8, 8259 "PORT" NETWORK_U16, 8263 "GROUP6" Ipv6,
    8269 "LOCAL6" Ipv6, 8275 "UDP_CSUM" U8, 8283 "UDP_ZERO_CSUM6_TX" U8,
    8300 "UDP_ZERO_CSUM6_RX" U8, 8317 "REMCSUM_TX" U8, 8327 "REMCSUM_RX" U8, 8337 "GBP" Flag,
    8340 "REMCSUM_NOPARTIAL" Flag, 8357 "COLLECT_METADATA" U8, 8373 "LABEL" NETWORK_U32,
    8378 "GPE" Flag, 8381 "TTL_INHERIT" U8, 8392 "DF" Value(Number::U8, Names(31)),
    8394 "VNIFILTER" U8, 8403 "LOCALBYPASS" U8,
    8414 "LABEL_POLICY" Value(Number::U32, Names(32)) }
    { 8426 "IFLA_WWAN_" 1 840 1; 8436 "LINK_ID" U32 } // 96 linkinfo-wwan-attrs
    // 97 linkinfo-xfrm-attrs
    { 8443 "IFLA_XFRM_" 1 841 3; 8453 "LINK" U32, 8457 "IF_ID" U32, 8462 "COLLECT_METADATA" Flag }
    // 98 lwt-bpf-attrs
    { 8478 "LWT_BPF_" 1 844 4; 8486 "IN" List(Set(99)), 8488 "OUT" List(Set(99)),
    8491 "XMIT" List(Set(99)), 8495 "XMIT_HEADROOM" U32 }
    { 8508 "LWT_BPF_PROG_" 1 848 2; 8521 "FD" U32, 8523 "NAME" Text } // 99 lwt-bpf-prog-attrs
    // 100 lwt-ila-attrs
    { 8527 "ILA_ATTR_" 1 850 9; 8536 "LOCATOR" NETWORK_U64, 8543 "IDENTIFIER" U64,
    8553 "LOCATOR_MATCH" NETWORK_U64, 8566 "IFINDEX" I32, 8573 "DIR" U32, 8576 "PAD" Bytes,
    8579 "CSUM_MODE" Value(Number::U8, Names(87)), 8588 "IDENT_TYPE" Value(Number::U8, Names(88)),
    8598 "HOOK_TYPE" Value(Number::U8, Names(89)) }
    // 101 lwt-ioam6-attrs
    { 8607 "IOAM6_IPTUNNEL_" 1 859 6; 8622 "MODE" Value(Number::U8, Names(86)), 8626 "DST" Ipv6,
    8629 "TRACE" Fields(Struct(75)), 8634 "FREQ_K" U32, 8640 "FREQ_N" U32, 8646 "SRC" Ipv6 }
    // 102 lwt-ip-attrs
    { 8649 "LWTUNNEL_IP_" 1 865 8; 8661 "ID" NETWORK_U64, 8663 "DST" Ipv4, 8666 "SRC" Ipv4,
    8669 "TTL" U8, 8672 "TOS" U8, 8675 "FLAGS" NETWORK_U16, 8680 "PAD" Bytes,
    8683 "OPTS" List(Set(106)) }
    // 103 lwt-ip-opt-erspan-attrs
    { 8687 "LWTUNNEL_IP_OPT_ERSPAN_" 1 873 4; 8710 "VER" U8, 8713 "INDEX" NETWORK_U32,
    8718 "DIR" U8, 8721 "HWID" U8 }
    // 104 lwt-ip-opt-geneve-attrs
    { 8725 "LWTUNNEL_IP_OPT_GENEVE_" 1 877 3; 8748 "CLASS" NETWORK_U16, 8753 "TYPE" U8,
    8757 "DATA" Bytes }
    { 8761 "LWTUNNEL_IP_OPT_VXLAN_" 1 880 1; 8783 "GBP" U32 } // 105 lwt-ip-opt-vxlan-attrs
    // 106 lwt-ip-opts-attrs
    { 8786 "LWTUNNEL_IP_OPTS_" 1 881 3; 8803 "GENEVE" List(Set(104)), 8809 "VXLAN" List(Set(105)),
    8814 "ERSPAN" List(Set(103)) }
    // 107 lwt-ip6-attrs
    { 8820 "LWTUNNEL_IP6_" 1 884 8; 8833 "ID" NETWORK_U64, 8835 "DST" Ipv6, 8838 "SRC" Ipv6,
    8841 "HOPLIMIT" U8, 8849 "TC" U8, 8851 "FLAGS" NETWORK_U16, 8856 "PAD" Bytes,
    8859 "OPTS" List(Set(106)) }
    // 108 lwt-mpls-attrs
    { 8863 "MPLS_IPTUNNEL_" 1 892 2; 8877 "DST" Array(Struct(70)), 8880 "TTL" U8 }
    { 8883 "RPL_IPTUNNEL_" 1 894 1; 8896 "SRH" Fields(Struct(74)) } // 109 lwt-rpl-attrs
    { 8899 "SEG6_IPTUNNEL_" 1 895 1; 8913 "SRH" Fields(Struct(71)) } // 110 lwt-seg6-attrs
    // 111 lwt-seg6local-attrs
    { 8916 "SEG6_LOCAL_" 1 896 11; 8927 "ACTION" Value(Number::U32, Names(85)),
    8933 "SRH" Fields(Struct(72)), 8936 "TABLE" U32, 8941 "NH4" Ipv4, 8944 "NH6" Ipv6,
    8947 "IIF" U32, 8950 "OIF" U32, 8953 "BPF" List(Set(147)), 8956 "VRFTABLE" U32,
    8964 "COUNTERS" List(Set(148)), 8972 "FLAVORS" List(Set(149)) }
    { 8979 "LWT_XFRM_" 1 907 2; 8988 "IF_ID" U32, 8993 "LINK" U32 } // 112 lwt-xfrm-attrs
    { 8997 "IFLA_MCTP_" 1 909 1; 9007 "NET" U32 } // 113 mctp-attrs
    // 114 mdb-attrs
    { 9010 "MDBA_" 1 910 2; 9015 "MDB" List(Set(118)), 9018 "ROUTER" List(Set(119)) }
    // 115 mdb-entry-attrs
    { 9024 "MDBA_MDB_ENTRY_" 1 912 1; 9039 "INFO" Headed(Struct(57), Set(116)) }
    // 116 mdb-entry-info-attrs
    { 9043 "MDBA_MDB_EATTR_" 1 913 10; 9058 "TIMER" U32, 9063 "SRC_LIST" List(Set(126)),
    9071 "GROUP_MODE" Value(Number::U8, Names(69)), 9081 "SOURCE" Ip,
    9087 "RTPROT" Value(Number::U8, Names(76)), 9093 "DST" Ip, 9096 "DST_PORT" U16,
    9104 "VNI" U32, 9107 "IFINDEX" U32, 9114 "SRC_VNI" U32 }
    // 117 mdb-get-attrs
    { 9121 "MDBA_GET_" 1 923 2; 9130 "ENTRY" Fields(Struct(57)),
    9135 "ENTRY_ATTRS" List(Set(122)) }
    { 9146 "MDBA_MDB_" 1 925 1; 9155 "ENTRY" List(Set(115)) } // 118 mdb-mdb-attrs
    // 119 mdb-router-attrs
    { 9160 "MDBA_ROUTER_" 1 926 1; 9172 "PORT" Headed(Struct(167), Set(120)) }
    // 120 mdb-router-port-attrs
    { 9176 "MDBA_ROUTER_PATTR_" 1 927 5; 9194 "TIMER" U32,
    9199 "TYPE" Value(Number::U8, Names(65)), 9203 "INET_TIMER" U32, 9213 "INET6_TIMER" U32,
    9224 "VID" U16 }
    // 121 mdb-set-attrs
    { 9227 "MDBA_SET_" 1 932 2; 9236 "ENTRY" Fields(Struct(57)),
    9241 "ENTRY_ATTRS" List(Set(122)) }
    // 122 mdb-set-entry-attrs
    { 9252 "MDBE_ATTR_" 1 934 10; 9262 "SOURCE" Ip, 9268 "SRC_LIST" List(Set(124)),
    9276 "GROUP_MODE" Value(Number::U8, Names(69)), 9286 "RTPROT" Value(Number::U8, Names(76)),
    9292 "DST" Ip, 9295 "DST_PORT" U16, 9303 "VNI" U32, 9306 "IFINDEX" I32, 9313 "SRC_VNI" U32,
    9320 "STATE_MASK" U8 }
    { 9330 "MDBE_SRCATTR_" 1 944 1; 9343 "ADDRESS" Ip } // 123 mdb-set-source-attrs
    // 124 mdb-set-source-list-attrs
    { 9350 "MDBE_SRC_LIST_" 1 945 1; 9364 "ENTRY" List(Set(123)) }
    // 125 mdb-source-attrs
    { 9369 "MDBA_MDB_SRCATTR_" 1 946 2; 9386 "ADDRESS" Ip, 9393 "TIMER" U32 }
    { 9398 "MDBA_MDB_SRCLIST_" 1 948 1; 9415 "ENTRY" List(Set(125)) } // 126 mdb-source-list-attrs
    { 9420 "MPLS_STATS_" 1 949 1; 9431 "LINK" Fields(Struct(69)) } // 127 mpls-stats-attrs
    // 128 ndt-attrs
    { 9435 "NDTA_" 1 950 9; 9440 "NAME" Text, 9444 "THRESH1" U32, 9451 "THRESH2" U32,
    9458 "THRESH3" U32, 9465 "CONFIG" Fields(Struct(60)), 9471 "PARMS" List(Set(129)),
    9476 "STATS" Fields(Struct(61)), 9481 "GC_INTERVAL" U64, 9492 "PAD" Bytes }
    // 129 ndtpa-attrs
    { 9495 "NDTPA_" 1 959 19; 9501 "IFINDEX" U32, 9508 "REFCNT" U32, 9514 "REACHABLE_TIME" U64,
    9528 "BASE_REACHABLE_TIME" U64, 9547 "RETRANS_TIME" U64, 9559 "GC_STALETIME" U64,
    9571 "DELAY_PROBE_TIME" U64, 9587 "QUEUE_LEN" U32, 9596 "APP_PROBES" U32,
    9606 "UCAST_PROBES" U32, 9618 "MCAST_PROBES" U32, 9630 "ANYCAST_DELAY" U64,
    9643 "PROXY_DELAY" U64, 9654 "PROXY_QLEN" U32, 9664 "LOCKTIME" U64, 9672 "QUEUE_LENBYTES" U32,
    9686 "MCAST_REPROBES" U32, 9700 "PAD" Bytes, 9703 "INTERVAL_PROBE_TIME_MS" U64 }
    { 9725 "NDUSEROPT_" 1 978 1; 9735 "SRCADDR" Ipv6 } // 130 nduseropt-attrs
    // 131 neighbour-attrs
    { 9742 "NDA_" 1 979 17; 9746 "DST" Ip, 9749 "LLADDR" Mac, 9755 "CACHEINFO" Fields(Struct(59)),
    9764 "PROBES" U32, 9770 "VLAN" U16, 9774 "PORT" NETWORK_U16, 9778 "VNI" U32,
    9781 "IFINDEX" U32, 9788 "MASTER" U32, 9794 "LINK_NETNSID" I32, 9806 "SRC_VNI" U32,
    9813 "PROTOCOL" Value(Number::U8, Names(76)), 9821 "NH_ID" U32,
    9826 "FDB_EXT_ATTRS" List(Set(132)), 9839 "FLAGS_EXT" Bits(Number::U32, Names(74)),
    9848 "NDM_STATE_MASK" Bits(Number::U16, Names(72)),
    9862 "NDM_FLAGS_MASK" Bits(Number::U8, Names(73)) }
    // 132 neighbour-fdb-ext-attrs
    { 9876 "NFEA_" 1 996 2; 9881 "ACTIVITY_NOTIFY" U8, 9896 "DONT_REFRESH" Flag }
    // 133 netconf-attrs
    { 9908 "NETCONFA_" 1 998 8; 9917 "IFINDEX" I32, 9924 "FORWARDING" I32, 9934 "RP_FILTER" I32,
    9943 "MC_FORWARDING" I32, 9956 "PROXY_NEIGH" I32, 9967 "IGNORE_ROUTES_WITH_LINKDOWN" I32,
    9994 "INPUT" I32, 9999 "BC_FORWARDING" I32 }
    // 134 netlink-policy-attrs
    { 10012 "NL_POLICY_TYPE_ATTR_" 1 1006 12; 10032 "TYPE" Value(Number::U32, Names(1)),
    10036 "MIN_VALUE_S" I64, 10047 "MAX_VALUE_S" I64, 10058 "MIN_VALUE_U" U64,
    10069 "MAX_VALUE_U" U64, 10080 "MIN_LENGTH" U32, 10090 "MAX_LENGTH" U32,
    10100 "POLICY_IDX" U32, 10110 "POLICY_MAXTYPE" U32, 10124 "BITFIELD32_MASK" U32,
    10139 "PAD" Bytes, 10142 "MASK" U64 }
    // 135 nexthop-attrs
    { 10146 "NHA_" 1 1018 17; 10150 "ID" U32, 10152 "GROUP" Array(Struct(68)),
    10157 "GROUP_TYPE" Value(Number::U16, Names(92)), 10167 "BLACKHOLE" Flag, 10176 "OIF" U32,
    10179 "GATEWAY" Ip, 10186 "ENCAP_TYPE" Value(Number::U16, Names(83)),
    10196 "ENCAP" Chosen(Choice(10), Selector::Beside(7)), 10201 "GROUPS" Flag,
    10207 "MASTER" U32, 10213 "FDB" Flag, 10216 "RES_GROUP" List(Set(139)),
    10225 "RES_BUCKET" List(Set(138)), 10235 "OP_FLAGS" Bits(Number::U32, Names(93)),
    10243 "GROUP_STATS" List(Set(136)), 10254 "HW_STATS_ENABLE" U32, 10269 "HW_STATS_USED" U32 }
    // 136 nexthop-group-stats-attrs
    { 10282 "NHA_GROUP_STATS_" 1 1035 1; 10298 "ENTRY" List(Set(137)) }
    // 137 nexthop-group-stats-entry-attrs
    { 10303 "NHA_GROUP_STATS_ENTRY_" 1 1036 3; 10325 "ID" U32, 10327 "PACKETS" Unsigned,
    10334 "PACKETS_HW" Unsigned }
    // 138 nexthop-res-bucket-attrs
    { 10344 "NHA_RES_BUCKET_" 0 1039 4; 10359 "PAD" Bytes, 10362 "INDEX" U16,
    10367 "IDLE_TIME" U64, 10376 "NH_ID" U32 }
    // 139 nexthop-res-group-attrs
    { 10381 "NHA_RES_GROUP_" 0 1043 5; 10395 "PAD" Bytes, 10398 "BUCKETS" U16,
    10405 "IDLE_TIMER" U32, 10415 "UNBALANCED_TIMER" U32, 10431 "UNBALANCED_TIME" U64 }
    // 140 nsid-attrs
    { 10446 "NETNSA_" 1 1048 5; 10453 "NSID" I32, 10457 "PID" U32, 10460 "FD" U32,
    10462 "TARGET_NSID" I32, 10473 "CURRENT_NSID" I32 }
    // 141 port-attrs
    { 10485 "IFLA_PORT_" 1 1053 7; 10495 "VF" U32, 10497 "PROFILE" Text,
    10504 "VSI_TYPE" Fields(Struct(30)), 10512 "INSTANCE_UUID" Bytes, 10525 "HOST_UUID" Bytes,
    10534 "REQUEST" Value(Number::U8, Names(17)), 10541 "RESPONSE" Value(Number::U16, Names(18)) }
    // 142 prefix-attrs
    { 10549 "PREFIX_" 1 1060 2; 10556 "ADDRESS" Ipv6, 10563 "CACHEINFO" Fields(Struct(65)) }
    { 10572 "IFLA_" 53 1062 1; 10577 "ALT_IFNAME" Text } // 143 prop-list-link-attrs
    // 144 proto-down-reason-attrs
    { 10587 "IFLA_PROTO_DOWN_REASON_" 1 1063 2; 10610 "MASK" U32, 10614 "VALUE" U32 }
    // 145 route-attrs
    { 10619 "RTA_" 1 1065 30; 10623 "DST" Chosen(Choice(9), Selector::Family), 10626 "SRC" Ip,
    10629 "IIF" U32, 10632 "OIF" U32, 10635 "GATEWAY" Ip, 10642 "PRIORITY" U32,
    10650 "PREFSRC" Ip, 10657 "METRICS" List(Set(146)), 10664 "MULTIPATH" Hops(Set(145)),
    10673 "PROTOINFO" Bytes, 10682 "FLOW" U32, 10686 "CACHEINFO" Fields(Struct(62)),
    10695 "SESSION" Bytes, 10702 "MP_ALGO" Bytes, 10709 "TABLE" Value(Number::U32, Names(78)),
    10714 "MARK" U32, 10718 "MFC_STATS" Fields(Struct(63)), 10727 "VIA" Fields(Struct(64)),
    10730 "NEWDST" Array(Struct(70)), 10736 "PREF" Value(Number::U8, Names(82)),
    10740 "ENCAP_TYPE" Value(Number::U16, Names(83)),
    10750 "ENCAP" Chosen(Choice(10), Selector::Beside(21)), 10755 "EXPIRES" U32,
    10762 "PAD" Bytes, 10765 "UID" U32, 10768 "TTL_PROPAGATE" U8, 10781 "IP_PROTO" U8,
    10789 "SPORT" U16, 10794 "DPORT" U16, 10799 "NH_ID" U32 }
    // 146 rta-metrics
    { 10804 "RTAX_" 1 1095 17; 10809 "LOCK" Bits(Number::U32, Names(122)), 10813 "MTU" U32,
    10816 "WINDOW" U32, 10822 "RTT" U32, 10825 "RTTVAR" U32, 10831 "SSTHRESH" U32,
    10839 "CWND" U32, 10843 "ADVMSS" U32, 10849 "REORDERING" U32, 10859 "HOPLIMIT" U32,
    10867 "INITCWND" U32, 10875 "FEATURES" Bits(Number::U32, Names(81)), 10883 "RTO_MIN" U32,
    10890 "INITRWND" U32, 10898 "QUICKACK" U32, 10906 "CC_ALGO" Text,
    10913 "FASTOPEN_NO_COOKIE" U32 }
    // 147 seg6local-bpf-attrs
    { 10931 "SEG6_LOCAL_BPF_" 1 1112 2; 10946 "PROG" U32, 10950 "PROG_NAME" Text }
    // 148 seg6local-counters-attrs
    { 10959 "SEG6_LOCAL_CNT_" 1 1114 4; 10974 "PAD" Bytes, 10977 "PACKETS" U64, 10984 "BYTES" U64,
    10989 "ERRORS" U64 }
    // 149 seg6local-flavors-attrs
    { 10995 "SEG6_LOCAL_FLV_" 1 1118 3; 11010 "OPERATION" Bits(Number::U32, Names(123)),
    11019 "LCBLOCK_BITS" U8, 11031 "LCNODE_FN_BITS" U8 }
    { 11045 "AF_" 28 1121 1; 11048 "MPLS" List(Set(127)) } // 150 stats-af-spec-attrs
    // 151 stats-attrs
    { 11052 "IFLA_STATS_" 1 1122 5; 11063 "LINK_64" Fields(Struct(25)),
    11070 "LINK_XSTATS" List(Set(64)), 11081 "LINK_XSTATS_SLAVE" List(Set(64)),
    11098 "LINK_OFFLOAD_XSTATS" List(Set(63)), 11117 "AF_SPEC" List(Set(150)) }
    // 152 stats-filter-attrs
    { 11124 "IFLA_STATS_" 1 1127 5; 11135 "LINK_64" U32, 11142 "LINK_XSTATS" U32,
    11153 "LINK_XSTATS_SLAVE" U32, 11170 "LINK_OFFLOAD_XSTATS" U32, 11189 "AF_SPEC" U32 }
    // 153 stats-getset-attrs
    { 11196 "IFLA_STATS_" 1 1132 2; 11207 "GET_FILTERS" List(Set(152)),
    11218 "SET_OFFLOAD_XSTATS_L3_STATS" U8 }
    { 11245 "IFLA_VF_" 1 1134 1; 11253 "PORT" List(Set(141)) } // 154 vf-ports-attrs
    // 155 vf-stats-attrs
    { 11257 "IFLA_VF_STATS_" 0 1135 9; 11271 "RX_PACKETS" U64, 11281 "TX_PACKETS" U64,
    11291 "RX_BYTES" U64, 11299 "TX_BYTES" U64, 11307 "BROADCAST" U64, 11316 "MULTICAST" U64,
    11325 "PAD" Bytes, 11328 "RX_DROPPED" U64, 11338 "TX_DROPPED" U64 }
    { 11348 "IFLA_VF_VLAN_" 1 1144 1; 11361 "INFO" Fields(Struct(34)) } // 156 vf-vlan-attrs
    // 157 vfinfo-attrs
    { 11365 "IFLA_VF_" 1 1145 13; 11373 "MAC" Fields(Struct(31)), 11376 "VLAN" Fields(Struct(33)),
    11380 "TX_RATE" Fields(Struct(35)), 11387 "SPOOFCHK" Fields(Struct(37)),
    11395 "LINK_STATE" Fields(Struct(39)), 11405 "RATE" Fields(Struct(36)),
    11409 "RSS_QUERY_EN" Fields(Struct(40)), 11421 "STATS" List(Set(155)),
    11426 "TRUST" Fields(Struct(41)), 11431 "IB_NODE_GUID" Fields(Struct(38)),
    11443 "IB_PORT_GUID" Fields(Struct(38)), 11455 "VLAN_LIST" List(Set(156)),
    11464 "BROADCAST" Fields(Struct(32)) }
    { 11473 "IFLA_VF_" 1 1158 1; 11481 "INFO" List(Set(157)) } // 158 vfinfo-list-attrs
    // 159 vlandb-attrs
    { 11485 "BRIDGE_VLANDB_" 1 1159 2; 11499 "ENTRY" List(Set(161)),
    11504 "GLOBAL_OPTIONS" List(Set(162)) }
    // 160 vlandb-dump-attrs
    { 11518 "BRIDGE_VLANDB_DUMP_" 1 1161 1; 11537 "FLAGS" Bits(Number::U32, Names(64)) }
    // 161 vlandb-entry-attrs
    { 11542 "BRIDGE_VLANDB_ENTRY_" 1 1162 9; 11562 "INFO" Fields(Struct(53)), 11566 "RANGE" U16,
    11571 "STATE" Value(Number::U8, Names(60)), 11576 "TUNNEL_INFO" List(Set(164)),
    11587 "STATS" List(Set(163)), 11592 "MCAST_ROUTER" Value(Number::U8, Names(65)),
    11604 "MCAST_N_GROUPS" U32, 11618 "MCAST_MAX_GROUPS" U32, 11634 "NEIGH_SUPPRESS" U8 }
    // 162 vlandb-global-options-attrs
    { 11648 "BRIDGE_VLANDB_GOPTS_" 1 1171 18; 11668 "ID" U16, 11670 "RANGE" U16,
    11675 "MCAST_SNOOPING" U8, 11689 "MCAST_IGMP_VERSION" U8, 11707 "MCAST_MLD_VERSION" U8,
    11724 "MCAST_LAST_MEMBER_CNT" U32, 11745 "MCAST_STARTUP_QUERY_CNT" U32,
    11768 "MCAST_LAST_MEMBER_INTVL" U64, 11791 "PAD" Bytes, 11794 "MCAST_MEMBERSHIP_INTVL" U64,
    11816 "MCAST_QUERIER_INTVL" U64, 11835 "MCAST_QUERY_INTVL" U64,
    11852 "MCAST_QUERY_RESPONSE_INTVL" U64, 11878 "MCAST_STARTUP_QUERY_INTVL" U64,
    11903 "MCAST_QUERIER" U8, 11916 "MCAST_ROUTER_PORTS" List(Set(119)),
    11934 "MCAST_QUERIER_STATE" List(Set(31)), 11953 "MSTI" U16 }
    // 163 vlandb-stats-attrs
    { 11957 "BRIDGE_VLANDB_STATS_" 1 1189 5; 11977 "RX_BYTES" U64, 11985 "RX_PACKETS" U64,
    11995 "TX_BYTES" U64, 12003 "TX_PACKETS" U64, 12013 "PAD" Bytes }
    // 164 vlandb-tunnel-attrs
    { 12016 "BRIDGE_VLANDB_TINFO_" 1 1194 2; 12036 "ID" U32, 12038 "CMD" U32 }
    { 12041 "VXLAN_VNIFILTER_" 1 1196 1; 12057 "ENTRY" List(Set(166)) } // 165 vnifilter-attrs
    // 166 vnifilter-entry-attrs
    { 12062 "VXLAN_VNIFILTER_ENTRY_" 1 1197 5; 12084 "START" U32, 12089 "END" U32,
    12092 "GROUP" Ipv4, 12097 "GROUP6" Ipv6, 12103 "STATS" List(Set(167)) }
    // 167 vnifilter-entry-stats-attrs
    { 12108 "VNIFILTER_ENTRY_STATS_" 1 1202 9; 12130 "RX_BYTES" U64, 12138 "RX_PKTS" U64,
    12145 "RX_DROPS" U64, 12153 "RX_ERRORS" U64, 12162 "TX_BYTES" U64, 12170 "TX_PKTS" U64,
    12177 "TX_DROPS" U64, 12185 "TX_ERRORS" U64, 12194 "PAD" Bytes }
    // 168 xdp-attrs
    { 12197 "IFLA_XDP_" 1 1211 8; 12206 "FD" I32, 12208 "ATTACHED" Value(Number::U8, Names(15)),
    12216 "FLAGS" Bits(Number::U32, Names(16)), 12221 "PROG_ID" U32, 12228 "DRV_PROG_ID" U32,
    12239 "SKB_PROG_ID" U32, 12250 "HW_PROG_ID" U32, 12260 "EXPECTED_FD" I32 }
    // 169 messages of families
    { 12271 "RTM_" 16 1219 107; 12275 "NEWLINK" Headed(Struct(5), Set(61)),
    12282 "DELLINK" Headed(Struct(5), Set(61)), 12289 "GETLINK" Headed(Struct(5), Set(61)),
    12296 "SETLINK" Headed(Struct(5), Set(61)), 12303 "NEWADDR" Headed(Struct(6), Set(0)),
    12310 "DELADDR" Headed(Struct(6), Set(0)), 12317 "GETADDR" Headed(Struct(6), Set(0)),
    12324 "" Bytes, 12324 "NEWROUTE" Headed(Struct(7), Set(145)),
    12332 "DELROUTE" Headed(Struct(7), Set(145)), 12340 "GETROUTE" Headed(Struct(7), Set(145)),
    12348 "" Bytes, 12348 "NEWNEIGH" Headed(Struct(8), Set(131)),
    12356 "DELNEIGH" Headed(Struct(8), Set(131)), 12364 "GETNEIGH" Headed(Struct(8), Set(131)),
    12372 "" Bytes, 12372 "NEWRULE" Headed(Struct(9), Set(52)),
    12379 "DELRULE" Headed(Struct(9), Set(52)), 12386 "GETRULE" Headed(Struct(9), Set(52)),
    12393 "" Bytes, 12393 "NEWQDISC" Headed(Struct(10), Set(195)),
    12401 "DELQDISC" Headed(Struct(10), Set(195)), 12409 "GETQDISC" Headed(Struct(10), Set(195)),
    12417 "" Bytes, 12417 "NEWTCLASS" Headed(Struct(10), Set(195)),
    12426 "DELTCLASS" Headed(Struct(10), Set(195)),
    12435 "GETTCLASS" Headed(Struct(10), Set(195)), 12444 "" Bytes,
    12444 "NEWTFILTER" Headed(Struct(10), Set(195)),
    12454 "DELTFILTER" Headed(Struct(10), Set(195)),
    12464 "GETTFILTER" Headed(Struct(10), Set(195)), 12474 "" Bytes,
    12474 "NEWACTION" Headed(Struct(11), Set(194)),
    12483 "DELACTION" Headed(Struct(11), Set(194)),
    12492 "GETACTION" Headed(Struct(11), Set(194)), 12501 "" Bytes,
    12501 "NEWPREFIX" Headed(Struct(15), Set(142)), 12510 "" Bytes, 12510 "" Bytes,
    12510 "" Bytes, 12510 "" Bytes, 12510 "" Bytes,
    12510 "GETMULTICAST" Headed(Struct(6), Set(0)), 12522 "" Bytes, 12522 "" Bytes,
    12522 "" Bytes, 12522 "GETANYCAST" Headed(Struct(6), Set(0)), 12532 "" Bytes,
    12532 "NEWNEIGHTBL" Headed(Struct(12), Set(128)), 12543 "" Bytes,
    12543 "GETNEIGHTBL" Headed(Struct(12), Set(128)),
    12554 "SETNEIGHTBL" Headed(Struct(12), Set(128)),
    12565 "NEWNDUSEROPT" Headed(Struct(16), Set(130)), 12577 "" Bytes, 12577 "" Bytes,
    12577 "" Bytes, 12577 "NEWADDRLABEL" Headed(Struct(14), Set(1)),
    12589 "DELADDRLABEL" Headed(Struct(14), Set(1)),
    12601 "GETADDRLABEL" Headed(Struct(14), Set(1)), 12613 "" Bytes, 12613 "" Bytes,
    12613 "" Bytes, 12613 "GETDCB" Headed(Struct(17), Set(37)),
    12619 "SETDCB" Headed(Struct(17), Set(37)), 12625 "NEWNETCONF" Headed(Struct(13), Set(133)),
    12635 "DELNETCONF" Headed(Struct(13), Set(133)),
    12645 "GETNETCONF" Headed(Struct(13), Set(133)), 12655 "" Bytes,
    12655 "NEWMDB" Headed(Struct(18), Set(114)), 12661 "DELMDB" Headed(Struct(18), Set(114)),
    12667 "GETMDB" Headed(Struct(18), Set(114)), 12673 "" Bytes,
    12673 "NEWNSID" Headed(Struct(4), Set(140)), 12680 "DELNSID" Headed(Struct(4), Set(140)),
    12687 "GETNSID" Headed(Struct(4), Set(140)), 12694 "" Bytes,
    12694 "NEWSTATS" Headed(Struct(20), Set(151)), 12702 "" Bytes,
    12702 "GETSTATS" Headed(Struct(20), Set(151)), 12710 "SETSTATS" Headed(Struct(20), Set(151)),
    12718 "NEWCACHEREPORT" Headed(Struct(4), Set(57)), 12732 "" Bytes, 12732 "" Bytes,
    12732 "" Bytes, 12732 "NEWCHAIN" Headed(Struct(10), Set(195)),
    12740 "DELCHAIN" Headed(Struct(10), Set(195)), 12748 "GETCHAIN" Headed(Struct(10), Set(195)),
    12756 "" Bytes, 12756 "NEWNEXTHOP" Headed(Struct(21), Set(135)),
    12766 "DELNEXTHOP" Headed(Struct(21), Set(135)),
    12776 "GETNEXTHOP" Headed(Struct(21), Set(135)), 12786 "" Bytes,
    12786 "NEWLINKPROP" Headed(Struct(5), Set(61)),
    12797 "DELLINKPROP" Headed(Struct(5), Set(61)),
    12808 "GETLINKPROP" Headed(Struct(5), Set(61)), 12819 "" Bytes,
    12819 "NEWVLAN" Headed(Struct(19), Set(159)), 12826 "DELVLAN" Headed(Struct(19), Set(159)),
    12833 "GETVLAN" Headed(Struct(19), Set(159)), 12840 "" Bytes,
    12840 "NEWNEXTHOPBUCKET" Headed(Struct(21), Set(135)),
    12856 "DELNEXTHOPBUCKET" Headed(Struct(21), Set(135)),
    12872 "GETNEXTHOPBUCKET" Headed(Struct(21), Set(135)), 12888 "" Bytes,
    12888 "NEWTUNNEL" Headed(Struct(22), Set(165)),
    12897 "DELTUNNEL" Headed(Struct(22), Set(165)),
    12906 "GETTUNNEL" Headed(Struct(22), Set(165)) }
    { 12915 "" 0 1326 1; 12915 "" List(Set(53)) } // 170 each of IFLA_OFFLOAD_XSTATS_HW_S_INFO
    { 12915 "" 0 1327 1; 12915 "" Ipv4 } // 171 each of IFLA_BOND_ARP_IP_TARGET
    { 12915 "" 0 1328 1; 12915 "" Ipv6 } // 172 each of IFLA_BOND_NS_IP6_TARGET
    } };
}

pub(crate) use links;
